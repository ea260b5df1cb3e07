// A whole script.
ghost use Rattle.std.specs.Prelude.{◌≤◌, length, IfOk};
ghost use Rattle.script.specs.Reading.{Calls, Reads};

use crate::calling::read_call;
use crate::calls::{Call, Make};
use crate::making::read_make;
use std::alloc::{AllocError, Global};

// What is read of a script: how the session is made, the calls, and the place where no call is spelled any more.
#[derive(Drop)]
pub struct Script<'a> {
    pub make: Option<Make>,
    pub calls: Vec<Call<'a>>,
    pub stopped: usize,
}

// The calls that are spelled from a place on, and the place where they stop.
fn read_calls<'a>(
    heap: Global,
    script: &'a [u8],
    start: usize,
) -> Result<(Vec<Call<'a>>, usize), AllocError>
    requires { start ≤ length script.now }
    ensures { IfOk result (λ p. Calls script.now start p.0.items p.1) }
{
    let mut calls = Vec::new(heap);
    let mut at = start;
    while let Some((call, next)) = read_call(script, at) {
        // converted ahead of `?`, which gets no proof of its own over a refused call with a space in it
        calls.push(call).map_err(AllocError::from)?;
        at = next;
    }
    Ok((calls, at))
}

// Reads a script as far as it is spelled right. The heap holds the list of the calls, and may refuse to.
pub fn read_script<'a>(heap: Global, script: &'a [u8]) -> Result<Script<'a>, AllocError>
    ensures { IfOk result (λ s. Reads script.now s) }
{
    let Some((make, start)) = read_make(script) else {
        return Ok(Script {
            make: None,
            calls: Vec::new(heap),
            stopped: 0,
        });
    };
    let (calls, stopped) = read_calls(heap, script, start)?;
    Ok(Script {
        make: Some(make),
        calls,
        stopped,
    })
}

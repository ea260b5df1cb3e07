// All that is told of a script.
ghost use Rattle.std.specs.Prelude.{◌≡◌, ◌++◌, IfOk, string_bytes, OnOk};
ghost use Rattle.replaying.specs.Outputs.{stop_line, ending, Replayed};

use crate::making::replay;
use crate::telling::tell_all;
use script::read_script;
use std::alloc::{AllocError, Global};

// Carries out the script, and tells the answers; last, the place where the script is not well formed, if there is one.
pub fn output(heap: Global, input: &[u8]) -> Result<Vec<u8>, AllocError>
    ensures { IfOk result (λ out. Replayed input.now out.items) }
{
    let script = read_script(heap, input)?;
    let Some(make) = script.make else {
        return Ok(stop_line(heap, 0)?.into_bytes());
    };
    let transcript = replay(heap, make, script.calls.as_slice())?;
    let mut out = tell_all(
        heap,
        transcript.answers.as_slice(),
        transcript.texts.as_slice(),
    )?;
    tell_end(heap, &mut out, script.stopped, input.len())?;
    Ok(out)
}

// Nothing is told of a script that is well formed up to its end.
fn tell_end(heap: Global, out: &mut Vec<u8>, stopped: usize, end: usize) -> Result<(), AllocError>
    ensures { OnOk result (out.new.items ≡ out.old.items ++ ending stopped end) }
{
    if stopped < end {
        out.extend_from_slice(stop_line(heap, stopped)?.as_bytes())?;
    }
    Ok(())
}

fn stop_line(heap: Global, at: usize) -> Result<String, AllocError>
    ensures { IfOk result (λ line. string_bytes line ≡ stop_line at) }
{
    format!(in heap; "script not well formed at byte {at}\n")
}

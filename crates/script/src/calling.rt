// Reading one call.
ghost use Rattle.std.specs.Prelude.{◌++◌, drop, codes, MatchOption};
ghost use Rattle.script.specs.Reading.{NoCall, OnLine, NotOnLine, Called};

use crate::calls::Call;
use crate::lines::{after, first_line};
use crate::numbers::number;
use crate::space::Space;

// The call that has this line, and what follows the call.
fn on_line<'a>(line: &[u8], follows: &'a [u8]) -> Option<(Call<'a>, &'a [u8])>
    ensures { MatchOption result (NotOnLine line.now follows.now) (λ p. OnLine line.now follows.now p.0 p.1.now) }
{
    if let Some(word) = after(line, b"load ") {
        let (text, rest) = follows.split_at_checked(number(word)?)?;
        return Some((Call::Load(text), rest));
    }
    if let Some(word) = after(line, b"decide ") {
        let allowance = u32::try_from(number(word)?).ok()?;
        return Some((Call::Decide(allowance), follows));
    }
    if let Some(word) = after(line, b"write ") {
        let space = Space::try_from(number(word)?).ok()?;
        return Some((Call::Write(space), follows));
    }
    (line == b"forget".as_slice()).then_some((Call::Forget, follows))
}

// The call that is spelled at a place of the script, and the place behind it.
pub fn read_call<'a>(script: &'a [u8], at: usize) -> Option<(Call<'a>, usize)>
    ensures { MatchOption result (NoCall (drop at script.now)) (λ p. Called script.now at p.0 p.1) }
{
    let (_, text) = script.split_at_checked(at)?;
    let (line, follows) = first_line(text)?;
    let (call, rest) = on_line(line, follows)?;
    Some((call, script.len() - rest.len()))
}

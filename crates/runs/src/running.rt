// A run: one call after the other.
ghost use Rattle.std.specs.Prelude.{IfOk};
ghost use Rattle.script.specs.declared.calls.Call.TheVariants.{Write};
ghost use Rattle.runs.specs.Carried.{Carried};
ghost use Rattle.runs.specs.Runs.{Ran};

use crate::answer::Answer;
use crate::transcript::Transcript;
use choosers::Chooser;
use memos::Memo;
use script::{Call, Space};
use session::Session;
use std::alloc::{AllocError, Global};

// Carries out the calls on a new session with this memo and this chooser. The heap holds the transcript, and may refuse to.
pub fn run<M: Memo + Drop, C: Chooser + Drop>(
    heap: Global,
    memo: M,
    chooser: C,
    calls: &[Call],
) -> Result<Transcript, AllocError>
    ensures { IfOk result (λ t. Ran M.held M.notes (C.picks chooser) calls.now t) }
{
    let mut session = Session::new(memo, chooser);
    let mut answers = Vec::new(heap);
    let mut texts = Vec::new(heap);
    for call in calls {
        let answer = carry_out(&mut session, *call, &mut texts)?;
        answers.push(answer)?;
    }
    Ok(Transcript { answers, texts })
}

// One call; a text that is written goes behind those before it.
fn carry_out<M: Memo, C: Chooser>(
    session: &mut Session<M, C>,
    call: Call,
    texts: &mut Vec<u8>,
) -> Result<Answer, AllocError>
    ensures { IfOk result (λ a. Carried M.held M.notes C.picks session.old texts.old.items call.entry a session.new texts.new.items) }
{
    match call {
        Call::Load(text) => Ok(Answer::Loading(session.load(text))),
        Call::Decide(allowance) => Ok(Answer::Decision(session.decide(allowance))),
        Call::Write(space) => write_out(session, space, texts),
        Call::Forget => {
            session.forget();
            Ok(Answer::Forgotten)
        }
    }
}

// Writes into a buffer of just the space that is given; the text, if it fits, goes behind those before it. The buffer is no part of the
// heap, so that a call that writes nothing asks for no memory.
fn write_out<M: Memo, C: Chooser>(
    session: &Session<M, C>,
    space: Space,
    texts: &mut Vec<u8>,
) -> Result<Answer, AllocError>
    ensures { IfOk result (λ a. Carried M.held M.notes C.picks session.now texts.old.items (Write space) a session.now texts.new.items) }
{
    let mut room = [0u8; Space::MOST];
    let buffer = &mut room[..space.bytes()];
    let answer = session.write(buffer);
    if let Ok(len) = answer {
        texts.extend_from_slice(&buffer[..len])?;
    }
    Ok(Answer::Writing(answer))
}

// The note that a split leaves.
ghost use Rattle.decision.specs.Endings.{came_to};
ghost use Rattle.decision.specs.Steps.{Noted};

use crate::unfinished::Halt;
use memos::Memo;

// Notes the verdict for the reduced set. Without a verdict there is nothing to note.
pub fn note_verdict<M: Memo>(memo: &mut M, number: u16, answer: Result<bool, Halt>)
    ensures { Noted M.notes memo.old number (came_to answer) memo.new }
{
    if let Ok(verdict) = answer {
        memo.note(number, verdict);
    }
}

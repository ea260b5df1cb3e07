// Shows that the traits of memos and choosers are open: a memo and a chooser of other makes, code that takes any of them,
// and small histories with all of them. Nothing else depends on this crate.
#![tactic(auto)]

ghost use Rattle.std.specs.Prelude.{◌≡◌, Bool, length, Some, None, MatchOption};
ghost use Rattle.memos.specs.Slots.{slotted_notes};
ghost use Rattle.qbf.specs.Chooser.{Listed};

use choosers::Chooser;
use memos::Memo;
use memos::blank::Blank;
use memos::slotted::Slotted;
use qbf::Candidate;

pub mod alternating;
pub mod last;

// Notes a pair and recalls its number at once: the memo may have forgotten the verdict, but tells no other.
pub fn recall_after_note<M: Memo>(memo: &mut M, number: u16, verdict: bool) -> Option<bool>
    ensures noted { M.notes memo.old number verdict memo.new }
    ensures told { result ≡ M.held memo.new number }
    ensures honest { (told : Bool) → result ≡ Some told → told ≡ verdict }
{
    memo.note(number, verdict);
    memo.recall(number)
}

// The position that a chooser picks, which is a listed one; `None` if there is no candidate.
pub fn split_position<C: Chooser>(chooser: &C, candidates: &[Candidate]) -> Option<u16>
    ensures { MatchOption result
        (length candidates.now ≡ 0)
        (λ p. (p ≡ C.picks chooser.now candidates.now) × Listed p candidates.now) }
{
    if candidates.is_empty() {
        return None;
    }
    Some(chooser.choose(candidates))
}

// With the slotted memo the verdict is always told: what it holds after a note is known where its type is.
pub fn slotted_recall_after_note(slotted: &mut Slotted, number: u16, verdict: bool) -> Option<bool>
    ensures noted { slotted_notes slotted.old number verdict slotted.new }
    ensures told { result ≡ Some verdict }
{
    recall_after_note(slotted, number, verdict)
}

// With the blank memo nothing is.
pub fn blank_recall_after_note(blank: &mut Blank, number: u16, verdict: bool) -> Option<bool>
    ensures { result ≡ None }
{
    recall_after_note(blank, number, verdict)
}

#[cfg(test)]
mod tests;

// Memos: what earlier decisions found, by node number. The trait says what every memo promises, so that a decision is
// proved once for all of them; the three memos here also say exactly which pairs they hold after a note.
#![tactic(auto)]

ghost use Rattle.std.specs.Prelude.{◌≡◌, ℕ, Bool};
ghost use Rattle.qbf.specs.Memo.{Pairs, Kept, Empty};

pub mod blank;
pub mod keeping;
pub mod laws;
mod pair;
pub mod slotted;

pub use pair::Pair;

// A store of pairs of node number and verdict that may forget any of them. No call refuses.
pub trait Memo {
    // the pairs that are held
    ghost held: { Self → Pairs };

    // a note of a verdict for a number may lead from the first memo to the second
    ghost notes: { Self → ℕ → Bool → Self → Type 0 };

    // The verdict that is held for the number. The memo stays as it is.
    fn recall(&self, number: u16) -> Option<bool>
        ensures { result ≡ held self.now number };

    // Offers the memo a pair.
    fn note(&mut self, number: u16, verdict: bool)
        ensures { notes self.old number verdict self.new };

    // Forgets every pair.
    fn clear(&mut self)
        ensures { Empty (held self.new) };

    // whatever a memo forgets, it never makes up a pair
    ghost kept: { (before : Self) (n : ℕ) (v : Bool) (after : Self) → notes before n v after → Kept (held before) n v (held after) };
}

// Reducing a set of the table by the rules for one-literal clauses and lone literals, and what a reduced set can be split at.
// Each answer is the definition's: the same lines in the same order, the same sets made, the same candidates.
// The table only grows: every number that it had keeps its set, also where it is full.
#![tactic(auto)]

ghost use Rattle.reduction.specs.Numbered.{NumbersStand};

mod block;
mod candidates;
mod reducing;
mod setting;
mod step;

pub use block::find_candidates;
pub use candidates::Candidates;
pub use reducing::{Reduced, reduce};
pub use setting::set_true;

pub fn numbers_stand()
    ensures { NumbersStand }
{}

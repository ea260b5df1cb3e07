// A formula as it is read from a text: the numbers of its problem line, its prefix and its clauses,
// in fixed arrays that hold every text of at most 60,000 bytes.
//
// Each method says what the lists that the arrays stand for become: bindings in prefix order, clauses in the order written.
#![tactic(auto)]

mod blank;
mod clauses;
mod prefix;

ghost use Rattle.std.specs.Prelude.{◌≡◌, Decides};
ghost use Rattle.formula.specs.declared.prefix.Prefix.{Prefix};
ghost use Rattle.formula.specs.Views.{bindings_of};

pub use clauses::{ClauseList, Clauses};
pub use prefix::{Binding, Prefix};

// V and C are the numbers of the problem line; C counts every clause of the text, also those that are not stored,
// and so does the number of those that are finished while the text is read.
#[derive(Clone, Copy)]
pub struct Formula {
    pub variables: u16,
    pub declared: u16,
    pub finished: u16,
    pub prefix: Prefix,
    pub clauses: ClauseList,
}

// Two prefixes are equal by `==` exactly if they have the same bindings.
#[tactic(auto, using(crate::proofs::Same::prefix_decides))]
pub fn equality_stands()
    ensures { (p q : Prefix) → Decides (⟦<Prefix as PartialEq>⟧.eq p q) (bindings_of p ≡ bindings_of q) }
{}

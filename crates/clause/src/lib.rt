// A clause as it was written, taken literal by literal: each literal once, and whether a variable stands in it with both signs.
// Literals are codes below 512, 2 * v for the positive and 2 * v + 1 for the negative literal of the variable v.
// Two clauses can be compared as sets of literals, in time linear in their lengths.
#![tactic(auto)]

ghost use Rattle.std.specs.Prelude.{◌≡◌, ℕ, false, slice_index_or};
ghost use Rattle.arrays.specs.Lists.{items_of};
ghost use Rattle.qbf.specs.Lists.{mem};
ghost use Rattle.clause.specs.Once.{once, OnceStands};

mod asked;
mod taken;

use arrays::{ByCode, FixedList};

// The literals of a clause, each once, in the order in which they first came. Their codes are marked, to be looked up.
#[derive(Clone, Copy)]
pub struct Clause {
    codes: FixedList<u16, 512>,
    both_signs: bool,
    marks: ByCode<bool>,
    ghost apart: { once (items_of codes) ≡ items_of codes },
    ghost marked: { (k : ℕ) → slice_index_or marks.at k false ≡ mem k (items_of codes) },
}

// What 'each literal once', 'both signs' and 'the same literals' mean for clauses as sets.
pub fn once_stands()
    ensures { OnceStands }
{}

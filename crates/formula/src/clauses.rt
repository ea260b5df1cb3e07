// The stored clauses, their literals one behind the other, and behind them those of a clause that is begun.
mod begins;
mod iter;
mod reads;
mod stores;

ghost use Rattle.std.specs.Prelude.{◌≡◌, ◌≤◌, true, length};
ghost use Rattle.arrays.specs.Lists.{items_of};
ghost use Rattle.formula.specs.Ends.{climbs};

use arrays::FixedList;
pub use iter::Clauses;

// The first `used` literals are those of the stored clauses: each clause ends at its end, and begins where the one before it ends.
// The literals behind them are those of the clause that is begun.
#[derive(Clone, Copy)]
pub struct ClauseList {
    literals: FixedList<u16, 30000>,
    ends: FixedList<u16, 2048>,
    used: usize,
    ghost stored: { used ≤ length (items_of literals) },
    ghost ordered: { climbs 0 (items_of ends) used ≡ true },
}

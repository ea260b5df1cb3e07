// What the reducing of a set asks of it: whether the empty clause is in it, which literals stand alone in a clause,
// and in how many clauses each literal occurs. The table is only read.
#![tactic(auto)]

mod counts;
mod empties;
mod units;

pub use counts::count_literals;
pub use empties::holds_empty;
pub use units::find_units;

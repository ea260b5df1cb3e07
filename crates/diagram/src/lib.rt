// Sets of clauses made in a table: a single clause, the union of two sets, the clauses without a literal,
// those that hold it with it taken out, and the setting of a literal.
// An operation answers the number of its set. The table gains the nodes of that set and no others;
// a table without room for them refuses, and every number that it had keeps its set.
// The functions take a set by its number and not as a lent `Set`, since they change the table.
// A node is visited at most once for each clause through it, and a recursion goes no deeper than there are codes.
#![tactic(auto)]

mod assignment;
mod clause;
mod literal;
mod pair;
mod sides;

pub use assignment::set_literal;
pub use clause::single;
pub use literal::{lacking, taken_out};
pub use pair::union;

// The table of a zero-suppressed decision diagram: at most 4,096 nodes, each with a code and two sides.
// A number of the table stands for a set of clauses: 0 for the empty set, 1 for the set of only the empty clause,
// and the numbers from 2 on for the nodes. No two numbers stand for one set, and a number keeps its set as the table grows.
#![tactic(auto)]

ghost use Rattle.table.specs.Laws.{EndsStand, SizesFit, SetsFormed, SetsCoded, NumbersApart, NodesReached, FullCrowds};

mod index;
mod node;
mod set;
mod table;

pub use node::Node;
pub use set::{Branches, Set};
pub use table::{Full, Table};

pub fn sets_stand()
    ensures ends { EndsStand }
    ensures fits { SizesFit }
    ensures formed { SetsFormed }
    ensures coded { SetsCoded }
    ensures apart { NumbersApart }
    ensures reached { NodesReached }
    ensures crowded { FullCrowds }
{}

// The table, and the rules that every table keeps.
ghost use Rattle.arrays.specs.Lists.{items_of};
ghost use Rattle.table.specs.Places.{Sound};
ghost use Rattle.table.specs.Probing.{Indexed};

use crate::index::Index;
use crate::node::Node;
use arrays::FixedList;

mod making;

// The table holds 4,096 nodes, and lacks a node of the set being made.
#[derive(Clone, Copy, PartialEq, Eq, Debug)]
pub struct Full;

#[derive(Clone, Copy)]
pub struct Table {
    nodes: FixedList<Node, 4096>,
    index: Index,
    ghost sound: { Sound (items_of nodes) },
    ghost indexed: { Indexed (items_of nodes) index.at },
}

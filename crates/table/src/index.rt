// The index of a table's nodes: a record for each, found in a few steps from a place that the node itself gives.
ghost use Rattle.std.specs.Prelude.{◌≡◌, ◌<◌, slice_set};
ghost use Rattle.table.specs.Probing.{home, used, Ends, Idle, Sought};

use crate::node::Node;
use lookup::{Keyed, find};

// A record: the number of a node. A record with number 0, which no node has, is free; an `Option` would take twice the room.
#[derive(Clone, Copy)]
pub struct Slot {
    pub number: u16,
}

// A node that is looked for, and the nodes that the numbers of the records are of.
#[derive(Clone, Copy)]
pub struct Probe<'a> {
    pub node: Node,
    pub nodes: &'a [Node],
}

// The lookup of a node ends at the record with its number, or at a free one, where the node's would stand.
impl<'a> Keyed<Probe<'a>> for Slot {
    ghost has = { λ slot key. Ends key.nodes.now key.node slot };

    fn is(&self, key: &Probe<'a>) -> bool {
        match usize::from(self.number) {
            0 => true,
            1 => false,
            number => number - 2 < key.nodes.len() && key.nodes[number - 2].is(&key.node),
        }
    }
}

// Twice as many records as there can be nodes, so that a lookup meets a free one soon.
#[derive(Clone, Copy)]
pub struct Index {
    pub at: [Slot; 8192],
}

impl Index {
    // An index of free records.
    pub fn new() -> Index
        ensures { Idle result.at }
    {
        Index {
            at: [Slot { number: 0 }; 8192],
        }
    }

    // The place where the lookup of the node begins. The factors scatter nodes that differ by small steps.
    fn home(node: &Node) -> usize
        ensures { result ≡ home node.now }
    {
        let code = usize::from(node.code);
        let with = usize::from(node.with);
        let without = usize::from(node.without);
        (code * 5011 + with * 2609 + without * 3163) % 8192
    }

    // The first place from the node's home on, and then from the start, whose record is free or has the node's number.
    pub fn seek(&self, probe: &Probe) -> usize
        requires { used self.now.at < 8192 }
        ensures { Sought self.now.at probe.now.nodes.now probe.now.node result }
    {
        let start = Index::home(&probe.node);
        if let Some(ahead) = find(&self.at[start..], probe) {
            return start + ahead;
        }
        find(&self.at[..start], probe).unwrap()
    }

    pub fn store(&mut self, place: usize, slot: Slot)
        requires { place < 8192 }
        ensures { self.new.at ≡ slice_set self.old.at place slot }
    {
        self.at[place] = slot;
    }
}

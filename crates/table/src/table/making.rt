// A table without nodes, and nodes read and made.
ghost use Rattle.std.specs.Prelude.{◌≡◌, ◌<◌, ◌≤◌};
ghost use Rattle.sets.specs.Sides.{Over, joined};
ghost use Rattle.table.specs.Probing.{Sought};
ghost use Rattle.table.specs.Tables.{nodes_of, size_of, Number, clauses, Makes, Opens};

use crate::index::{Index, Probe, Slot};
use crate::node::Node;
use crate::table::{Full, Table};
use arrays::FixedList;

impl Table {
    // A table without nodes.
    pub fn new() -> Table
        ensures { size_of result ≡ 0 }
    {
        let blank = Node {
            code: 0,
            with: 0,
            without: 0,
        };
        Table {
            nodes: FixedList::new(blank),
            index: Index::new(),
        }
    }

    // Takes every node out. A table without nodes is left as it is, so that the index is not written again.
    pub fn clear(&mut self)
        ensures { size_of self.new ≡ 0 }
    {
        if self.size() == 0 {
            return;
        }
        self.nodes.clear();
        self.index = Index::new();
    }

    // The number of nodes.
    pub fn size(&self) -> usize
        ensures value { result ≡ size_of self.now }
        ensures fits { result ≤ 4096 }
    {
        self.nodes.len()
    }

    // The node of a set that has a non-empty clause. The caller has tested that: with an `Option` here, as `Set::branches`
    // has it, a union takes half as many steps again.
    pub fn node(&self, number: u16) -> Node
        requires held { Number self.now number }
        requires filled { 2 ≤ number }
        ensures { Opens self.now number result }
    {
        self.nodes.as_slice()[usize::from(number) - 2]
    }

    // The place of the node's record in the index, or of the free one where it would stand. A function of its own, since a
    // call that lends two fields of a `&mut self` has to prove all the table's rules anew.
    fn place(&self, node: Node) -> usize
        ensures { Sought self.now.index.at (nodes_of self.now) node result }
    {
        self.index.seek(&Probe {
            node,
            nodes: self.nodes.as_slice(),
        })
    }

    // The set with these two sides, and the code in front of the clauses of the first.
    pub fn make(&mut self, code: u16, with: u16, without: u16) -> Result<u16, Full>
        requires coded { code < 512 }
        requires with_held { Number self.old with }
        requires without_held { Number self.old without }
        requires with_over { Over code (clauses self.old with) }
        requires without_over { Over code (clauses self.old without) }
        ensures { Makes self.old (joined code (clauses self.old with) (clauses self.old without)) self.new result }
    {
        if with == 0 {
            return Ok(without);
        }
        let node = Node {
            code,
            with,
            without,
        };
        let place = self.place(node);
        let found = self.index.at[place].number;
        if found != 0 {
            return Ok(found);
        }
        if self.nodes.is_full() {
            return Err(Full);
        }
        let number = self.size() as u16 + 2;
        self.nodes.push(node);
        self.index.store(place, Slot { number });
        Ok(number)
    }
}

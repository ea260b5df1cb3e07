// What a set is made of.
ghost use Rattle.std.specs.Prelude.{◌≡◌, ◌<◌, MatchOption};
ghost use Rattle.table.specs.Tables.{Number, clauses};
ghost use Rattle.table.specs.Sets.{clauses_of, Branched};

use crate::set::Set;
use crate::table::Table;

// A set with a non-empty clause: its lowest code, the clauses with that code, without it, and the other clauses.
#[derive(Clone, Copy)]
pub struct Branches<'a> {
    pub code: u16,
    pub with: Set<'a>,
    pub without: Set<'a>,
}

impl Table {
    // The set with this number.
    pub fn set(&self, number: u16) -> Set<'_>
        requires { Number self.now number }
        ensures clauses { clauses_of result ≡ clauses self.now number }
        ensures number { result.number ≡ number }
    {
        Set {
            table: self,
            number,
        }
    }
}

impl<'a> Set<'a> {
    // `None` for the two sets without a non-empty clause.
    pub fn branches(self) -> Option<Branches<'a>>
        ensures { MatchOption result (self.entry.number < 2) (Branched self.entry) }
    {
        if self.number < 2 {
            return None;
        }
        let node = self.table.node(self.number);
        Some(Branches {
            code: node.code,
            with: self.table.set(node.with),
            without: self.table.set(node.without),
        })
    }
}

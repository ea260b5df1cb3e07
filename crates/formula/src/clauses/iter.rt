// The stored clauses one after the other.
ghost use Rattle.std.specs.Prelude.{◌≡◌};
ghost use Rattle.std.specs.Iterator.{YieldsFirstRef, item_count};
ghost use Rattle.formula.specs.Views.{clauses_of, clauses_left};

use crate::clauses::ClauseList;

// The clauses of a list from a place on.
#[derive(Drop)]
pub struct Clauses<'a> {
    list: &'a ClauseList,
    place: usize,
}

impl<'a> Iterator for Clauses<'a> {
    type Item = &'a [u16];

    ghost next_gives = { YieldsFirstRef clauses_left };

    ghost remaining = { item_count clauses_left };

    fn next(&mut self) -> Option<&'a [u16]> {
        if self.place >= self.list.len() {
            return None;
        }
        let clause = self.list.clause(self.place);
        self.place += 1;
        Some(clause)
    }
}

impl ClauseList {
    pub fn iter(&self) -> Clauses<'_>
        ensures { clauses_left result ≡ clauses_of self.now }
    {
        Clauses {
            list: self,
            place: 0,
        }
    }
}

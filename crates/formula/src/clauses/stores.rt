// How clauses are stored.
ghost use Rattle.std.specs.Prelude.{◌≡◌, ◌+◌, ◌<◌, ◌≤◌, [], ◌∷◌, ◌++◌, length};
ghost use Rattle.formula.specs.Views.{clauses_of, begun_of};

use crate::clauses::ClauseList;
use arrays::FixedList;

impl ClauseList {
    pub fn new() -> ClauseList
        ensures clauses { clauses_of result ≡ [] }
        ensures used { result.used ≡ 0 }
        ensures begun { begun_of result ≡ [] }
    {
        ClauseList {
            literals: FixedList::new(0),
            ends: FixedList::new(0),
            used: 0,
        }
    }

    // One clause more, at the end. No clause is begun behind it.
    pub fn push(&mut self, codes: &[u16])
        requires room { self.old.used + length codes.now ≤ 30000 }
        requires few { length (clauses_of self.old) < 2048 }
        ensures clauses { clauses_of self.new ≡ clauses_of self.old ++ codes.now ∷ [] }
        ensures used { self.new.used ≡ self.old.used + length codes.now }
        ensures begun { begun_of self.new ≡ [] }
    {
        self.drop_begun();
        self.literals.extend_from_slice(codes);
        self.used += codes.len();
        // No more than 30,000, so the cast is exact; `try_from` would answer an error that cannot come.
        self.ends.push(self.used as u16);
    }
}

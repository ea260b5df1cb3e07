// What is asked of the stored clauses.
ghost use Rattle.std.specs.Prelude.{◌≡◌, ◌<◌, [], length, slice_index_or};
ghost use Rattle.formula.specs.Ends.{beginning};
ghost use Rattle.formula.specs.Views.{clauses_of};

use crate::clauses::ClauseList;

impl ClauseList {
    #[tactic(auto, using(crate::proofs::Ends::as_many))]
    pub fn len(&self) -> usize
        ensures { result ≡ length (clauses_of self.now) }
    {
        self.ends.len()
    }

    // The clause at a place, counted from 0.
    #[tactic(auto, using(crate::proofs::Ends::as_many, crate::proofs::Ends::climbs_at, crate::proofs::Ends::clause_at))]
    pub fn clause(&self, place: usize) -> &[u16]
        requires { place < length (clauses_of self.now) }
        ensures { result.now ≡ slice_index_or (clauses_of self.now) place [] }
    {
        let ends = self.ends.as_slice();
        let start = beginning(ends, place);
        let end = usize::from(ends[place]);
        &self.literals.as_slice()[start..end]
    }
}

// Where the clause at a place begins: the first at 0, each other where the one before it ends.
fn beginning(ends: &[u16], place: usize) -> usize
    requires { place < length ends.now }
    ensures { result ≡ beginning 0 ends.now place }
{
    if place == 0 {
        return 0;
    }
    usize::from(ends[place - 1])
}

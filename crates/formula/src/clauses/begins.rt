// The clause that is begun: its literals as they were written, behind those of the stored clauses.
ghost use Rattle.std.specs.Prelude.{◌≡◌, ◌+◌, ◌<◌, [], ◌∷◌, ◌++◌, length};
ghost use Rattle.formula.specs.Views.{clauses_of, begun_of};

use crate::clauses::ClauseList;

impl ClauseList {
    // The literals of the clause that is begun.
    pub fn begun(&self) -> &[u16]
        ensures { result.now ≡ begun_of self.now }
    {
        &self.literals.as_slice()[self.used..]
    }

    // One literal more in the clause that is begun.
    #[tactic(auto, using(crate::proofs::Ends::clauses_longer))]
    pub fn push_literal(&mut self, code: u16)
        requires { self.old.used + length (begun_of self.old) < 30000 }
        ensures clauses { clauses_of self.new ≡ clauses_of self.old }
        ensures used { self.new.used ≡ self.old.used }
        ensures begun { begun_of self.new ≡ begun_of self.old ++ code ∷ [] }
    {
        self.literals.push(code);
    }

    // No clause is begun.
    #[tactic(auto, using(crate::proofs::Ends::clauses_cut))]
    pub fn drop_begun(&mut self)
        ensures clauses { clauses_of self.new ≡ clauses_of self.old }
        ensures used { self.new.used ≡ self.old.used }
        ensures begun { begun_of self.new ≡ [] }
    {
        self.literals.truncate(self.used);
    }
}

// What is asked of a clause.
ghost use Rattle.std.specs.Prelude.{◌≡◌, ◌<◌};
ghost use Rattle.std.specs.List.{AllByRecursion};
ghost use Rattle.qbf.specs.Lists.{Distinct, mem};
ghost use Rattle.clause.specs.Once.{same_set};
ghost use Rattle.clause.specs.Codes.{codes_of};

use crate::Clause;

impl Clause {
    // The literals of the clause, each once.
    pub fn codes(&self) -> &[u16]
        ensures { result.now ≡ codes_of self.now }
    {
        self.codes.as_slice()
    }

    // Whether some variable stands in the clause with both signs.
    pub fn has_both_signs(&self) -> bool
        ensures { result ≡ self.now.both_signs }
    {
        self.both_signs
    }

    // Whether the clause has the literal.
    #[tactic(auto, using(crate::proofs::Codes::looked))]
    pub(crate) fn has(&self, code: u16) -> bool
        requires { code < 512 }
        ensures { result ≡ mem code (codes_of self.now) }
    {
        self.marks.get(code)
    }

    // Whether the clause has the same literals as a stored one, in whatever order.
    // Each of the two has each literal once, so they are the same when they are as long and the one holds the other.
    pub fn same_literals(&self, stored: &[u16]) -> bool
        requires small { AllByRecursion (λ c. c < 512) stored.now }
        requires distinct { Distinct stored.now }
        ensures { result ≡ same_set (codes_of self.now) stored.now }
    {
        stored.len() == self.codes.len() && stored.iter().all(|code| self.has(*code))
    }
}

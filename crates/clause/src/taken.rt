// A clause taken from the literals as written.
ghost use Rattle.std.specs.Prelude.{◌≡◌, ◌<◌, ◌||◌, ◌∷◌, [], ◌++◌, if◌then◌else◌};
ghost use Rattle.std.specs.List.{AllByRecursion};
ghost use Rattle.qbf.specs.Literals.{complement};
ghost use Rattle.qbf.specs.Lists.{mem};
ghost use Rattle.clause.specs.Once.{once, both_signs};
ghost use Rattle.clause.specs.Codes.{codes_of};

use crate::Clause;
use arrays::{ByCode, FixedList};
use qbf::opposite;

impl Clause {
    // The clause of the literals as they were written: a repeated literal is dropped.
    pub fn of(literals: &[u16]) -> Clause
        requires { AllByRecursion (λ c. c < 512) literals.now }
        ensures codes { codes_of result ≡ once literals.now }
        ensures flag { result.both_signs ≡ both_signs literals.now }
    {
        let mut clause = Clause {
            codes: FixedList::new(0),
            both_signs: false,
            marks: ByCode::new(false),
        };
        for literal in literals {
            clause.add(*literal);
        }
        clause
    }

    // One literal more, unless it has come before.
    fn add(&mut self, code: u16)
        requires { code < 512 }
        ensures codes { codes_of self.new ≡ (if mem code (codes_of self.old) then codes_of self.old else codes_of self.old ++ code ∷ []) }
        ensures flag { self.new.both_signs ≡ (self.old.both_signs || mem (complement code) (codes_of self.old)) }
    {
        self.both_signs |= self.has(opposite(code));
        if !self.has(code) {
            self.marks.set(code, true);
            self.codes.push(code);
        }
    }
}

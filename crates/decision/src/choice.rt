// The variable that is split.
ghost use Rattle.std.specs.Prelude.{◌≡◌, ◌<◌};
ghost use Rattle.decision.specs.Values.{literal};
ghost use Rattle.qbf.specs.Walk.{ends};

use qbf::Quantifier;

// The variable, counted from 0, and its quantifier.
#[derive(Clone, Copy)]
pub struct Choice {
    pub variable: u16,
    pub quantifier: Quantifier,
    ghost bound: { variable < 256 },
}

impl Choice {
    // The literal that is true where the variable has this value.
    pub fn literal(&self, value: bool) -> u16
        ensures { result ≡ literal self.now.variable value }
    {
        if value {
            2 * self.variable
        } else {
            2 * self.variable + 1
        }
    }

    // Whether the verdict of the first side is that of the split.
    pub fn ends_with(&self, verdict: bool) -> bool
        ensures { result ≡ ends self.now.quantifier verdict }
    {
        match self.quantifier {
            Quantifier::Existential => verdict,
            Quantifier::Universal => !verdict,
        }
    }
}

// What a load answers.
ghost use Rattle.std.specs.Prelude.{◌≡◌};

use formula::Formula;

// The numbers of the problem line: V, and C with every clause of the text counted, also those that are not stored.
#[derive(Clone, Copy, PartialEq, Eq, Debug)]
pub struct Loaded {
    pub variables: u16,
    pub declared: u16,
}

// Of a formula that was read.
impl From<&Formula> for Loaded {
    ghost from_gives = { λ formula loaded. (loaded.variables ≡ formula.now.variables) × (loaded.declared ≡ formula.now.declared) };

    fn from(formula: &Formula) -> Loaded {
        Loaded {
            variables: formula.variables,
            declared: formula.declared,
        }
    }
}

// A decision that ends without a verdict.
ghost use Rattle.std.specs.Prelude.{◌≡◌};
ghost use Rattle.decision.specs.declared.unfinished.Halt.TheVariants.{Full as full};

use table::Full;

// Why, each with the fixed number by which it is told.
#[derive(Clone, Copy, PartialEq, Eq, Debug)]
pub enum Halt {
    // the table has no room for a set
    Full = 10,
    // the allowance is spent
    Spent = 11,
    // too many splits are open
    TooDeep = 12,
}

// With the splits that were made until then.
#[derive(Clone, Copy, PartialEq, Eq, Debug)]
pub struct Unfinished {
    pub halt: Halt,
    pub splits: u32,
}

impl From<Full> for Halt {
    ghost from_gives = { λ _ r. r ≡ full };

    fn from(_full: Full) -> Halt {
        Halt::Full
    }
}

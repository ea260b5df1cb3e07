// A noted verdict, and the lookup of one among lent pairs.
ghost use Rattle.std.specs.Prelude.{◌≡◌};
ghost use Rattle.memos.specs.Rows.{verdict_among};

use lookup::{Keyed, find};

#[derive(Clone, Copy)]
pub struct Pair {
    pub number: u16,
    pub verdict: bool,
}

impl Keyed<u16> for Pair {
    ghost has = { λ pair number. pair.number ≡ number };

    fn is(&self, number: &u16) -> bool {
        self.number == *number
    }
}

// The verdict of the first pair with this number.
pub fn verdict_among(pairs: &[Pair], number: u16) -> Option<bool>
    ensures { result ≡ verdict_among pairs.now number }
{
    find(pairs, &number).map(|place| pairs[place].verdict)
}

// Which rule a word breaks that is no number, or none that may stand there.
ghost use Rattle.std.specs.Prelude.{◌≡◌};
ghost use Rattle.grammar.specs.Steps.{fault_of};

use crate::fault::Rule;
use words::NumberFault;

impl From<NumberFault> for Rule {
    ghost from_gives = { λ fault rule. rule ≡ fault_of fault };

    fn from(fault: NumberFault) -> Rule {
        match fault {
            NumberFault::NotANumber => Rule::Misplaced,
            NumberFault::OutOfRange => Rule::OutOfRange,
        }
    }
}

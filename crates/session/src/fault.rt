// Why a call is refused.
ghost use Rattle.std.specs.Prelude.{◌≡◌, Some};
ghost use Rattle.session.specs.Told.{fault_told, refused_line};
ghost use Rattle.session.specs.declared.fault.Fault.TheVariants.{Unread, TooShort as Short, TableFull, Undecided};

use decision::Unfinished;
use grammar::ReadFault;
use std::fmt;
use table::Full;
use writer::TooShort;

// Each case has a fixed number; the reader's fault is taken in whole.
#[derive(Clone, Copy)]
pub enum Fault {
    // 1 to 6: the reader refuses the text, at an offset
    Unread(ReadFault),
    // 7: no formula is loaded
    NoFormula,
    // 8: the allowance is above 1,000,000
    AllowanceTooLarge,
    // 9: the buffer is too short for the text, which has so many bytes
    TooShort(usize),
    // 10 from a load: the table has no room for one of its sets
    TableFull,
    // 10 to 12 from a decision, with the splits that it made
    Undecided(Unfinished),
}

impl Fault {
    // The refusal's fixed number.
    pub fn number(&self) -> u8
        ensures { result ≡ (fault_told self.now).number }
    {
        match self {
            Fault::Unread(fault) => fault.rule.number(),
            Fault::NoFormula => 7,
            Fault::AllowanceTooLarge => 8,
            Fault::TooShort(_) => 9,
            Fault::TableFull => 10,
            Fault::Undecided(unfinished) => unfinished.halt as u8,
        }
    }

    // The value that it carries: the offset, the length needed, or the splits.
    pub fn value(&self) -> Option<usize>
        ensures { result ≡ (fault_told self.now).value }
    {
        match self {
            Fault::Unread(fault) => Some(fault.at),
            Fault::TooShort(needed) => Some(*needed),
            Fault::Undecided(unfinished) => Some(unfinished.splits as usize),
            Fault::NoFormula | Fault::AllowanceTooLarge | Fault::TableFull => None,
        }
    }
}

// Without a value it is printed with 0.
impl fmt::Display for Fault {
    ghost output = { λ fault. Some (refused_line (fault_told fault)) };

    fn fmt<W: fmt::Write>(&self, f: &mut fmt::Formatter<W>) -> fmt::Result {
        let number = self.number();
        let value = self.value().unwrap_or(0);
        write!(f, "refused {number} at {value}")
    }
}

impl From<ReadFault> for Fault {
    ghost from_gives = { λ fault r. r ≡ Unread fault };

    fn from(fault: ReadFault) -> Fault {
        Fault::Unread(fault)
    }
}

impl From<Full> for Fault {
    ghost from_gives = { λ _ r. r ≡ TableFull };

    fn from(_full: Full) -> Fault {
        Fault::TableFull
    }
}

impl From<TooShort> for Fault {
    ghost from_gives = { λ short r. r ≡ Short short.needed };

    fn from(short: TooShort) -> Fault {
        Fault::TooShort(short.needed)
    }
}

impl From<Unfinished> for Fault {
    ghost from_gives = { λ unfinished r. r ≡ Undecided unfinished };

    fn from(unfinished: Unfinished) -> Fault {
        Fault::Undecided(unfinished)
    }
}

// Why a text is not written.
ghost use Rattle.std.specs.Prelude.{◌≡◌, Some};
ghost use Rattle.normal.specs.Told.{told};
ghost use Rattle.normal.specs.declared.fault.Unwritten.TheVariants.{Unread, Full as NoRoom, TooShort as TooLittle};

use grammar::ReadFault;
use std::fmt;
use table::Full;
use writer::TooShort;

#[derive(Clone, Copy, PartialEq, Eq, Debug)]
pub enum Unwritten {
    // the reader refuses the text
    Unread(ReadFault),
    // the table has no room for one of the sets that its clauses make
    Full,
    // the buffer is too short for the text that is written, which has so many bytes
    TooShort(usize),
}

// With its number as a session tells it, and the offset, 0 or the length needed.
impl fmt::Display for Unwritten {
    ghost output = { λ unwritten. Some (told unwritten) };

    fn fmt<W: fmt::Write>(&self, f: &mut fmt::Formatter<W>) -> fmt::Result {
        match self {
            Unwritten::Unread(fault) => write!(f, "{fault}"),
            Unwritten::Full => write!(f, "refused 10 at 0"),
            Unwritten::TooShort(needed) => write!(f, "refused 9 at {needed}"),
        }
    }
}

impl From<ReadFault> for Unwritten {
    ghost from_gives = { λ fault unwritten. unwritten ≡ Unread fault };

    fn from(fault: ReadFault) -> Unwritten {
        Unwritten::Unread(fault)
    }
}

impl From<Full> for Unwritten {
    ghost from_gives = { λ _ unwritten. unwritten ≡ NoRoom };

    fn from(_full: Full) -> Unwritten {
        Unwritten::Full
    }
}

impl From<TooShort> for Unwritten {
    ghost from_gives = { λ short unwritten. unwritten ≡ TooLittle short.needed };

    fn from(short: TooShort) -> Unwritten {
        Unwritten::TooShort(short.needed)
    }
}

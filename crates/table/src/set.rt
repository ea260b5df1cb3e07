// A set of a table, lent to be read.
ghost use Rattle.std.specs.Prelude.{◌≡◌};
ghost use Rattle.table.specs.Tables.{Number};

use crate::table::Table;

mod reading;

pub use reading::Branches;

#[derive(Clone, Copy)]
pub struct Set<'a> {
    table: &'a Table,
    number: u16,
    ghost held: { Number table.now number },
}

impl<'a> Set<'a> {
    // The number that the table has for it.
    pub fn number(self) -> u16
        ensures { result ≡ self.entry.number }
    {
        self.number
    }
}

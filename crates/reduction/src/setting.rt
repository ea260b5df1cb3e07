// The setting of a literal, in the terms of a table's list of sets.
ghost use Rattle.table.specs.Tables.{Number, clauses};
ghost use Rattle.reduction.specs.Numbered.{Kept};
ghost use Rattle.reduction.specs.Outcomes.{SetTrue, StaysReady};

use diagram::set_literal;
use table::{Full, Table};

// The set with the literal set true. Its four sets are made in order, as far as there is room.
pub fn set_true(table: &mut Table, number: u16, literal: u16) -> Result<u16, Full>
    requires held { Number table.old number }
    ensures set { SetTrue table.old (clauses table.old number) literal table.new result }
    ensures ready { StaysReady table.old number table.new result }
    ensures keeps { Kept table.old table.new }
{
    set_literal(table, number, literal)
}

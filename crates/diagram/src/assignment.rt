// The setting of a literal.
ghost use Rattle.std.specs.Prelude.{◌≡◌};
ghost use Rattle.qbf.specs.Clauses.{assigned, setting};
ghost use Rattle.table.specs.Tables.{Number, clauses, MakesAll};

use crate::literal::{lacking, taken_out};
use crate::pair::union;
use qbf::opposite;
use table::{Full, Table};

// The set with the literal set true: the clauses that hold it go, and its complement is taken out of the others.
// Four sets are made, in order; a refusal leaves those before the one that there is no room for.
pub fn set_literal(table: &mut Table, number: u16, literal: u16) -> Result<u16, Full>
    requires { Number table.old number }
    ensures { MakesAll table.old (setting literal (clauses table.old number)) (assigned literal (clauses table.old number)) table.new result }
{
    let other = opposite(literal);
    let left = lacking(table, number, literal)?;
    let shortened = taken_out(table, left, other)?;
    let untouched = lacking(table, left, other)?;
    union(table, shortened, untouched)
}

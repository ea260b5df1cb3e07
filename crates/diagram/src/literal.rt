// The clauses of a set that lack a literal, and those that hold it.
ghost use Rattle.std.specs.Prelude.{◌≡◌};
ghost use Rattle.qbf.specs.Clauses.{lacking, taken_out};
ghost use Rattle.table.specs.Tables.{Number, clauses, Makes};
ghost use Rattle.diagram.specs.Parts.{part_of, side_of};

use crate::sides::{Sides, sides_at};
use table::{Full, Table};

// Which clauses are made: those that lack a literal, or those that hold it, with it taken out. With a closure that picks the
// side, the contract below would need such a name all the same.
#[derive(Clone, Copy)]
enum Part {
    Lacking,
    TakenOut,
}

impl Part {
    // The part of a set by its sides at the literal.
    fn of(self, sides: Sides) -> u16
        ensures { result ≡ side_of self sides.with sides.without }
    {
        match self {
            Part::Lacking => sides.without,
            Part::TakenOut => sides.with,
        }
    }
}

// A part of a set: by the parts of its two sides, where its lowest code is below the literal.
fn make_part(table: &mut Table, part: Part, number: u16, literal: u16) -> Result<u16, Full>
    requires { Number table.old number }
    ensures { Makes table.old (part_of part literal (clauses table.old number)) table.new result }
{
    if number >= 2 {
        let node = table.node(number);
        if node.code < literal {
            let with = make_part(table, part, node.with, literal)?;
            let without = make_part(table, part, node.without, literal)?;
            return table.make(node.code, with, without);
        }
    }
    Ok(part.of(sides_at(table, number, literal)))
}

// The clauses of a set that do not hold the literal.
pub fn lacking(table: &mut Table, number: u16, literal: u16) -> Result<u16, Full>
    requires { Number table.old number }
    ensures { Makes table.old (lacking literal (clauses table.old number)) table.new result }
{
    make_part(table, Part::Lacking, number, literal)
}

// The clauses of a set that hold the literal, with it taken out.
pub fn taken_out(table: &mut Table, number: u16, literal: u16) -> Result<u16, Full>
    requires { Number table.old number }
    ensures { Makes table.old (taken_out literal (clauses table.old number)) table.new result }
{
    make_part(table, Part::TakenOut, number, literal)
}

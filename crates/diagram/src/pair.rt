// The union of two sets.
ghost use Rattle.std.specs.Prelude.{◌<◌, ◌≤◌};
ghost use Rattle.qbf.specs.Clauses.{union};
ghost use Rattle.table.specs.Tables.{Number, clauses, Makes};
ghost use Rattle.diagram.specs.Cofactors.{Lowest};

use crate::sides::sides_at;
use table::{Full, Table};

// The lowest code of two sets, of which one has a non-empty clause.
fn lowest(table: &Table, a: u16, b: u16) -> u16
    requires a_held { Number table.now a }
    requires b_held { Number table.now b }
    requires one { a < 2 → 2 ≤ b }
    ensures { Lowest table.now a b result }
{
    if a < 2 {
        return table.node(b).code;
    }
    if b < 2 {
        return table.node(a).code;
    }
    table.node(a).code.min(table.node(b).code)
}

// The clauses of two sets.
pub fn union(table: &mut Table, a: u16, b: u16) -> Result<u16, Full>
    requires a_held { Number table.old a }
    requires b_held { Number table.old b }
    ensures { Makes table.old (union (clauses table.old a) (clauses table.old b)) table.new result }
{
    if a == b || b == 0 {
        return Ok(a);
    }
    if a == 0 {
        return Ok(b);
    }
    let code = lowest(table, a, b);
    let left = sides_at(table, a, code);
    let right = sides_at(table, b, code);
    let with = union(table, left.with, right.with)?;
    let without = union(table, left.without, right.without)?;
    table.make(code, with, without)
}

// The two sides of a set at a code.
ghost use Rattle.table.specs.Tables.{Number, clauses};
ghost use Rattle.diagram.specs.Cofactors.{From, Sided};

use table::Table;

// The numbers of the sides: the clauses with the code, without their first one, and the others.
#[derive(Clone, Copy)]
pub struct Sides {
    pub with: u16,
    pub without: u16,
}

// The sides of a set at a code that is at most its lowest: where it is lower, the with-side is empty.
pub fn sides_at(table: &Table, number: u16, code: u16) -> Sides
    requires held { Number table.now number }
    requires from { From code (clauses table.now number) }
    ensures { Sided table.now number code result.with result.without }
{
    if number >= 2 {
        let node = table.node(number);
        if node.code == code {
            return Sides {
                with: node.with,
                without: node.without,
            };
        }
    }
    Sides {
        with: 0,
        without: number,
    }
}

// Reducing a set to its end.
ghost use Rattle.qbf.specs.Decision.{ReducesIn};
ghost use Rattle.table.specs.Tables.{clauses};
ghost use Rattle.reduction.specs.Numbered.{quantifiers_of, sets_of, Ready, Kept};
ghost use Rattle.reduction.specs.Outcomes.{outcome_of, Leaves};

use crate::setting::set_true;
use crate::step::{Step, next_step};
use formula::Prefix;
use table::{Full, Table};

// What reducing comes to: a verdict, or the number of a set that no line fits.
#[derive(Clone, Copy)]
pub enum Reduced {
    Decided(bool),
    Left(u16),
}

// Carries out the first line that fits, and tries the lines again from the top, until one gives a verdict or none fits.
pub fn reduce(table: &mut Table, prefix: &Prefix, number: u16) -> Result<Reduced, Full>
    requires ready { Ready (quantifiers_of prefix.now) table.old number }
    ensures reduces { ReducesIn (quantifiers_of prefix.now) (sets_of table.old) (clauses table.old number) (outcome_of table.new result) (sets_of table.new) }
    ensures ready { Leaves (quantifiers_of prefix.now) table.new result }
    ensures keeps { Kept table.old table.new }
{
    let mut rest = number;
    loop {
        match next_step(table.set(rest), prefix) {
            Step::Settled(verdict) => return Ok(Reduced::Decided(verdict)),
            Step::Forced(literal) => rest = set_true(table, rest, literal)?,
            Step::Stuck => return Ok(Reduced::Left(rest)),
        }
    }
}

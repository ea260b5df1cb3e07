// One-literal clauses.
ghost use Rattle.table.specs.Sets.{clauses_of};
ghost use Rattle.survey.specs.Surveyed.{UnitsOf};

use crate::empties::holds_empty;
use arrays::ByCode;
use table::Set;

// For each code, whether the set has the clause of that literal alone: a node's code stands alone in a clause exactly if
// the empty clause is in its with-side.
pub fn find_units(set: Set) -> ByCode<bool>
    ensures { UnitsOf (clauses_of set.entry) result.at }
{
    let mut units = ByCode::new(false);
    let mut rest = set;
    while let Some(branches) = rest.branches() {
        if holds_empty(branches.with) {
            units.set(branches.code, true);
        }
        rest = branches.without;
    }
    units
}

// The clauses of a formula made as a set in a table, one after the other: each clause alone,
// and after it the set of those so far.
// The answer is the number of the whole set. A table without room for one of the sets refuses;
// the sets before that one are then made, and every number that the table had keeps its set.
#![tactic(auto)]

ghost use Rattle.std.specs.Prelude.{◌<◌, []};
ghost use Rattle.std.specs.List.{AllByRecursion};
ghost use Rattle.formula.specs.Views.{clauses_of};
ghost use Rattle.sets.specs.Formed.{formed, forming};
ghost use Rattle.table.specs.Tables.{MakesAll};

use diagram::{single, union};
use formula::ClauseList;
use table::{Full, Table};

// The set of the clauses; of none, the empty set.
pub fn store_clauses(table: &mut Table, clauses: &ClauseList) -> Result<u16, Full>
    requires { AllByRecursion (AllByRecursion (λ x. x < 512)) (clauses_of clauses.now) }
    ensures { MakesAll table.old (forming [] (clauses_of clauses.now)) (formed [] (clauses_of clauses.now)) table.new result }
{
    let mut set = 0;
    for codes in clauses.iter() {
        let clause = single(table, codes)?;
        set = union(table, clause, set)?;
    }
    Ok(set)
}

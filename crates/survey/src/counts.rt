// The number of clauses of each literal.
ghost use Rattle.std.specs.Prelude.{◌≡◌, ◌<◌, length};
ghost use Rattle.table.specs.Sets.{clauses_of};
ghost use Rattle.survey.specs.Surveyed.{Counted, Tallied, Roomy};

use arrays::ByCode;
use table::Set;

// The number of the set's clauses; each is counted for its literals.
fn tally(set: Set, counts: &mut ByCode<u16>) -> u16
    requires { Roomy (length (clauses_of set)) counts.old.at }
    ensures total { result ≡ length (clauses_of set.entry) }
    ensures each { Tallied (clauses_of set.entry) counts.old.at counts.new.at }
{
    let Some(branches) = set.branches() else {
        return set.number();
    };
    // each clause of the with-side is one more for the code
    let with = tally(branches.with, counts);
    counts.set(branches.code, counts.get(branches.code) + with);
    let without = tally(branches.without, counts);
    with + without
}

// In how many clauses of the set each literal occurs. One that occurs in none has the count 0.
pub fn count_literals(set: Set) -> ByCode<u16>
    requires { length (clauses_of set) < 65536 }
    ensures { Counted (clauses_of set.entry) result.at }
{
    let mut counts = ByCode::new(0);
    tally(set, &mut counts);
    counts
}

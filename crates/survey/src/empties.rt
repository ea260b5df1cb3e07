// The empty clause.
ghost use Rattle.std.specs.Prelude.{[], Decides};
ghost use Rattle.qbf.specs.Lists.{In};
ghost use Rattle.table.specs.Sets.{clauses_of};

use table::Set;

// Whether the empty clause is in the set: it stands at the end of the chain of without-sides.
pub fn holds_empty(set: Set) -> bool
    ensures { Decides result (In [] (clauses_of set.entry)) }
{
    let mut rest = set;
    while let Some(branches) = rest.branches() {
        rest = branches.without;
    }
    rest.number() == 1
}

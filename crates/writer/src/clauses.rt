// The clauses of a set of the table, in their order: those of the with-side first, and then those of the without-side.
ghost use Rattle.std.specs.Prelude.{◌≡◌, ◌*◌, ◌≤◌, length};
ghost use Rattle.arrays.specs.Lists.{items_of};
ghost use Rattle.table.specs.Sets.{clauses_of};
ghost use Rattle.writer.specs.Below.{Below, lines_below};
ghost use Rattle.writer.specs.Puts.{Puts};

use crate::pen::Pen;
use arrays::FixedList;
use formula::Binding;
use table::Set;

// How many clauses the set has. (The tally of `survey` counts them too, but with a count for each literal, which is not asked here.)
pub fn count_clauses(set: Set) -> u16
    requires { length (clauses_of set) ≤ 2048 }
    ensures { result ≡ length (clauses_of set.entry) }
{
    let Some(branches) = set.branches() else {
        return set.number();
    };
    count_clauses(branches.with) + count_clauses(branches.without)
}

impl Pen<'_> {
    // The line of each clause, with the codes of the path in front of its own. A path has the codes of the nodes at which
    // the way down to the set took the with-side. They rise, so that there are at most 512.
    pub fn put_clauses(&mut self, set: Set, prefix: &[Binding], path: &mut FixedList<u16, 512>)
        requires { Below (2 * length prefix.now) (items_of path.old) (clauses_of set) }
        ensures text { Puts self.old (lines_below prefix.now (items_of path.old) (clauses_of set.entry)) self.new }
        ensures path { items_of path.new ≡ items_of path.old }
    {
        let Some(branches) = set.branches() else {
            if set.number() == 1 {
                self.put_clause(prefix, path.as_slice());
            }
            return;
        };
        path.push(branches.code);
        self.put_clauses(branches.with, prefix, path);
        path.pop();
        self.put_clauses(branches.without, prefix, path);
    }
}

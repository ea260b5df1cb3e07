// A formula before any word of its text.
ghost use Rattle.formula.specs.Views.{Blank};

use crate::Formula;
use crate::clauses::ClauseList;
use crate::prefix::Prefix;

impl Formula {
    // A formula that says nothing yet.
    pub fn new() -> Formula
        ensures { Blank result }
    {
        Formula {
            variables: 0,
            declared: 0,
            finished: 0,
            prefix: Prefix::new(),
            clauses: ClauseList::new(),
        }
    }
}

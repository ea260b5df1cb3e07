// The candidates of a split.
ghost use Rattle.std.specs.Prelude.{◌≡◌, []};
ghost use Rattle.arrays.specs.Lists.{items_of};

use arrays::FixedList;
use qbf::{Candidate, Quantifier};

// The candidates in prefix order, and the quantifier of their block.
#[derive(Clone, Copy)]
pub struct Candidates {
    pub list: FixedList<Candidate, 256>,
    pub quantifier: Quantifier,
}

impl Candidates {
    // No candidate yet, of a block with this quantifier.
    pub(crate) fn none(quantifier: Quantifier) -> Candidates
        ensures list { items_of result.list ≡ [] }
        ensures block { result.quantifier ≡ quantifier }
    {
        let unused = Candidate {
            position: 0,
            positive: 0,
            negative: 0,
        };
        Candidates {
            list: FixedList::new(unused),
            quantifier,
        }
    }
}

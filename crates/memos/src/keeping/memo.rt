// How the keeping memo is made, read and written.
ghost use Rattle.qbf.specs.Memo.{Empty};
ghost use Rattle.memos.specs.Keeps.{keeping_held, keeping_notes};
ghost use Rattle.std.proofs.Common.{rules};

use crate::Memo;
use crate::keeping::Keeping;
use crate::pair::{Pair, verdict_among};
use arrays::FixedList;
use lookup::find;

impl Keeping {
    pub fn new() -> Keeping
        ensures { Empty (keeping_held result) }
    {
        let blank = Pair {
            number: 0,
            verdict: false,
        };
        Keeping {
            pairs: FixedList::new(blank),
        }
    }
}

impl Memo for Keeping {
    ghost held = { keeping_held };

    ghost notes = { keeping_notes };

    ghost kept = { Prim.search rules };

    fn recall(&self, number: u16) -> Option<bool> {
        verdict_among(self.pairs.as_slice(), number)
    }

    fn note(&mut self, number: u16, verdict: bool) {
        let pair = Pair { number, verdict };
        if let Some(place) = find(self.pairs.as_slice(), &number) {
            self.pairs.set(place, pair);
        } else if !self.pairs.is_full() {
            self.pairs.push(pair);
        }
    }

    fn clear(&mut self) {
        self.pairs.clear();
    }
}

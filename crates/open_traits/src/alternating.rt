// A memo that forgets every second pair, and holds the last one that it took.
ghost use Rattle.qbf.specs.Memo.{Empty};
ghost use Rattle.open_traits.specs.Alternates.{alternating_held, AlternatingNotes};
ghost use Rattle.std.proofs.Common.{rules};

use memos::{Memo, Pair};

#[derive(Clone, Copy)]
pub struct Alternating {
    taken: Option<Pair>,
    // whether the next pair is forgotten
    forgets: bool,
}

impl Alternating {
    pub fn new() -> Alternating
        ensures { Empty (alternating_held result) }
    {
        Alternating {
            taken: None,
            forgets: false,
        }
    }
}

impl Memo for Alternating {
    ghost held = { alternating_held };

    ghost notes = { AlternatingNotes };

    ghost kept = { Prim.search rules };

    fn recall(&self, number: u16) -> Option<bool> {
        let own = self.taken.filter(|pair| pair.number == number);
        own.map(|pair| pair.verdict)
    }

    // An earlier pair of a forgotten number goes as well: no memo may tell a verdict that a later note has overtaken.
    fn note(&mut self, number: u16, verdict: bool) {
        self.taken = if self.forgets {
            self.taken.filter(|pair| pair.number != number)
        } else {
            Some(Pair { number, verdict })
        };
        self.forgets = !self.forgets;
    }

    fn clear(&mut self) {
        *self = Alternating::new();
    }
}

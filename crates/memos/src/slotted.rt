// The memo with one slot for the numbers that are equal modulo 1,024: a note takes its slot from the pair that had it.
ghost use Rattle.qbf.specs.Memo.{Empty};
ghost use Rattle.memos.specs.Slots.{slotted_held, slotted_notes};
ghost use Rattle.std.proofs.Common.{rules};

use crate::Memo;
use crate::pair::{Pair, verdict_among};

const SLOTS: usize = 1024;

#[derive(Clone, Copy)]
pub struct Slotted {
    slots: [Option<Pair>; SLOTS],
}

impl Slotted {
    pub fn new() -> Slotted
        ensures { Empty (slotted_held result) }
    {
        Slotted {
            slots: [None; SLOTS],
        }
    }
}

impl Memo for Slotted {
    ghost held = { slotted_held };

    ghost notes = { slotted_notes };

    ghost kept = { Prim.search rules };

    // Only one slot can have the number's pair; it is looked up as among any lent pairs.
    fn recall(&self, number: u16) -> Option<bool> {
        self.slots[usize::from(number) % SLOTS].and_then(|pair| verdict_among(&[pair], number))
    }

    fn note(&mut self, number: u16, verdict: bool) {
        self.slots[usize::from(number) % SLOTS] = Some(Pair { number, verdict });
    }

    fn clear(&mut self) {
        *self = Slotted::new();
    }
}

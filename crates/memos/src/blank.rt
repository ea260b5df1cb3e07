// The memo that never holds a pair.
ghost use Rattle.qbf.specs.Memo.{Empty};
ghost use Rattle.memos.specs.Blanks.{blank_held, blank_notes};
ghost use Rattle.std.proofs.Common.{rules};

use crate::Memo;

#[derive(Clone, Copy)]
pub struct Blank;

impl Blank {
    pub fn new() -> Blank
        ensures { Empty (blank_held result) }
    {
        Blank
    }
}

impl Memo for Blank {
    ghost held = { blank_held };

    ghost notes = { blank_notes };

    ghost kept = { Prim.search rules };

    fn recall(&self, _number: u16) -> Option<bool> {
        None
    }

    fn note(&mut self, _number: u16, _verdict: bool) {}

    fn clear(&mut self) {}
}

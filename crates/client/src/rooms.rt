// One room after another in the same session.
ghost use Rattle.std.specs.Prelude.{IfOk};
ghost use Rattle.client.specs.Facts.{ValueOf};

use choosers::Chooser;
use memos::Memo;
use session::{Fault, Session};

// The verdict on a second text, after a first one was loaded and decided as far as that went: it is the value of the second
// text's formula, whatever the memo remembers.
pub fn next_room<M: Memo + Drop, C: Chooser + Drop>(
    memo: M,
    chooser: C,
    first: &[u8],
    second: &[u8],
    allowance: u32,
) -> Result<(bool, u32), Fault>
    ensures { IfOk result (λ a. ValueOf second.now a.0) }
{
    let mut session = Session::new(memo, chooser);
    let _ = session.load(first);
    let _ = session.decide(allowance);
    session.load(second)?;
    session.decide(allowance)
}

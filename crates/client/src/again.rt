// The same question twice.
ghost use Rattle.client.specs.Facts.{Again};

use choosers::Chooser;
use memos::slotted::Slotted;
use session::{Fault, Session};

// With the slotted memo, a verdict that is asked for again is given at once, even with no split allowed.
pub fn decide_again<C: Chooser + Drop>(
    chooser: C,
    text: &[u8],
    allowance: u32,
) -> (Result<(bool, u32), Fault>, Result<(bool, u32), Fault>)
    ensures { Again result.0 result.1 }
{
    let mut session = Session::new(Slotted::new(), chooser);
    let _ = session.load(text);
    let first = session.decide(allowance);
    let second = session.decide(0);
    (first, second)
}

// The answer to an editor, which hands over a text and receives one number; the crate zulfringa_c exports it to C.
ghost use Rattle.zulfringa.specs.Stamps.{Stamped};

use crate::checking::check;

// What is added to a refusal's number.
const REFUSED: u8 = 10;

// 0 for false, 1 for true, or 10 more than the refusal's number.
pub fn zulfringa_check(text: &[u8]) -> u8
    ensures { Stamped text.now result }
{
    match check(text) {
        Ok(checked) => u8::from(checked.verdict),
        Err(fault) => REFUSED + fault.number(),
    }
}

// The checker's answer to one text, by a new session with the keeping memo, First and the largest allowance: for programs
// (`check`), for the program's output (`report_on`), and for the editor, which is written in C (`zulfringa_check`).
//
// A verdict is the value, by full expansion, of the formula that the text has by the grammar; a refusal is answered only in its
// own case. No call asks anything of its caller, allocates or fails.
#![tactic(auto)]

ghost use Rattle.zulfringa.specs.Laws.{SessionsCheck};

mod checking;
mod entry;
mod report;

pub use checking::{Checked, check};
pub use entry::zulfringa_check;
pub use report::{Report, report_on};

// What a new session answers to a text is what the answer has to mean.
pub fn sessions_stand()
    ensures { SessionsCheck }
{}

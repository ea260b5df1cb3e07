// What the program prints of a text.
ghost use Rattle.std.specs.Prelude.{◌≡◌, Some};
ghost use Rattle.zulfringa.specs.BySession.{BySession};
ghost use Rattle.zulfringa.specs.Checks.{Checks};
ghost use Rattle.zulfringa.specs.Reports.{printed};

use crate::checking::{Checked, check};
use session::Fault;
use std::fmt;

// The answer to a text as it is told: a refusal by its number, with its offset or splits.
#[derive(Clone, Copy)]
pub struct Report(pub Result<Checked, Fault>);

// Checks the text.
pub fn report_on(text: &[u8]) -> Report
    ensures session { BySession text.now result.0 }
    ensures means { Checks text.now result.0 }
{
    Report(check(text))
}

impl fmt::Display for Report {
    ghost output = { λ report. Some (printed report.0) };

    fn fmt<W: fmt::Write>(&self, f: &mut fmt::Formatter<W>) -> fmt::Result {
        match self.0 {
            Ok(checked) => {
                let verdict = u8::from(checked.verdict);
                let variables = checked.variables;
                let declared = checked.declared;
                let splits = checked.splits;
                write!(
                    f,
                    "s cnf {verdict} {variables} {declared}\nc splits {splits}"
                )
            }
            Err(fault) => write!(f, "c {fault}"),
        }
    }
}

// The answer to a call, and the line that tells it.
ghost use Rattle.std.specs.Prelude.{Some};
ghost use Rattle.runs.specs.Lines.{answer_line};

use session::{Fault, Loaded};
use std::fmt;

#[derive(Clone, Copy)]
pub enum Answer {
    Loading(Result<Loaded, Fault>),
    Decision(Result<(bool, u32), Fault>),
    Writing(Result<usize, Fault>),
    Forgotten,
}

// The line is shown without its end.
impl fmt::Display for Answer {
    ghost output = { λ answer. Some (answer_line answer) };

    fn fmt<W: fmt::Write>(&self, f: &mut fmt::Formatter<W>) -> fmt::Result {
        match self {
            Answer::Loading(Ok(loaded)) => {
                let variables = loaded.variables;
                let declared = loaded.declared;
                write!(f, "loaded {variables} {declared}")
            }
            Answer::Decision(Ok((verdict, splits))) => {
                let value = u8::from(*verdict);
                write!(f, "verdict {value} splits {splits}")
            }
            Answer::Writing(Ok(len)) => write!(f, "wrote {len}"),
            Answer::Forgotten => write!(f, "forgot"),
            Answer::Loading(Err(fault))
            | Answer::Decision(Err(fault))
            | Answer::Writing(Err(fault)) => write!(f, "{fault}"),
        }
    }
}

// The answer to a text.
ghost use Rattle.zulfringa.specs.BySession.{BySession};
ghost use Rattle.zulfringa.specs.Checks.{Checks};

use choosers::first::First;
use memos::keeping::Keeping;
use session::{Fault, MOST_ALLOWED, Session};

// The verdict with the splits that it took, and V and C of the text's problem line.
#[derive(Clone, Copy, PartialEq, Eq, Debug)]
pub struct Checked {
    pub verdict: bool,
    pub splits: u32,
    pub variables: u16,
    pub declared: u16,
}

// Loads the text into a new session and decides it.
pub fn check(text: &[u8]) -> Result<Checked, Fault>
    ensures session { BySession text.now result }
    ensures means { Checks text.now result }
{
    let mut session = Session::new(Keeping::new(), First);
    let loaded = session.load(text)?;
    let (verdict, splits) = session.decide(MOST_ALLOWED)?;
    Ok(Checked {
        verdict,
        splits,
        variables: loaded.variables,
        declared: loaded.declared,
    })
}

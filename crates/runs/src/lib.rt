// Carries out any list of calls on a new session, and keeps what was answered.
//
// The contract of `run` is the law over whole runs: at every place of the list, and for every memo and every chooser, the answer
// is the one that the session's calls owe after the dealings before it.
#![tactic(auto)]

mod answer;
mod running;
mod transcript;

pub use answer::Answer;
pub use running::run;
pub use transcript::Transcript;

// A session: texts are loaded, decided, written and forgotten, with one memo and one chooser of any make.
//
// The contract of every call pins its answer and all that it leaves. It also says, for every history of dealings since `new` that
// led to the session, refused ones included: the answer keeps the promises by that history's ledger, and the history with this
// dealing leads to the session after it. No call asks anything of its caller, allocates, or fails.
#![tactic(auto)]

ghost use Rattle.session.specs.Laws.{FaultsTold};

mod answer;
mod fault;
mod inner;
mod scope;
mod session;

pub use answer::Loaded;
pub use fault::Fault;
pub use session::{MOST_ALLOWED, Session};

// A refusal is told by the number and the value that its answer has.
pub fn faults_stand()
    ensures { FaultsTold }
{}

// Clients of a session, which know no more of it than the contracts of its calls: the calls' clauses are chained from `new` on,
// and what comes out is a plain fact about the answers.
#![tactic(auto)]

mod again;
mod rooms;

pub use again::decide_again;
pub use rooms::next_room;

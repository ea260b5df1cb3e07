// The session: a memo, a chooser and the core that they work on.
use crate::inner::Core;

mod begin;
mod calls;

pub use calls::MOST_ALLOWED;

#[derive(Drop)]
pub struct Session<M, C> {
    memo: M,
    chooser: C,
    core: Core,
}

// How far a decision has come.
ghost use Rattle.std.specs.Prelude.{◌≡◌, suc, ◌<◌, ◌≤◌};

use crate::unfinished::Halt;

mod work;

// The splits that were made, of those that are allowed, and how many of them are open.
#[derive(Clone, Copy)]
pub struct Progress {
    pub allowance: u32,
    pub splits: u32,
    pub depth: u16,
    ghost allowed: { splits ≤ allowance },
    ghost shallow: { depth ≤ 256 },
}

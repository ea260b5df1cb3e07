// Replays a script: carries out its calls with the memo and the chooser that it names, and tells the answers, one line each.
//
//     loaded V C
//     verdict R splits N               R is 1 for true and 0 for false
//     wrote L                          the L bytes of the text follow
//     forgot
//     refused N at P                   P is the offset, the length needed, the splits, or 0
//     script not well formed at byte P
//
// The contract of `output` is the law over whole scripts: what is told is the answers of a run by the calls that are spelled in
// the script, up to the place where none is spelled any more.
#![tactic(auto)]

mod making;
mod telling;
mod whole;

pub use making::replay;
pub use telling::tell_all;
pub use whole::output;

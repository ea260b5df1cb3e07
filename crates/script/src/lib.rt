// A script: a list of calls on a session as data, and the text that spells it.
//
//     session MEMO CHOOSER    the first line; MEMO is blank, slotted or keeping, and CHOOSER is first or busiest
//     load L                  L bytes of any text follow, and then directly the next line
//     decide A                A is at most 4,294,967,295
//     write S                 S is at most 65,536
//     forget
//
// Every line ends in byte 10, one space stands between words, and numbers are decimal without needless zeros. A call is
// read exactly where one is spelled, and a script up to the place where none is spelled any more. What is read spells
// the text up to there, byte for byte, and no text spells two calls at its front.
#![tactic(auto)]

mod calling;
pub mod calls;
mod lines;
mod making;
mod numbers;
pub mod scripts;
mod space;

ghost use Rattle.script.specs.Meaning.{SpellingStands};

pub use calling::read_call;
pub use calls::{Call, ChooserKind, Make, MemoKind};
pub use making::read_make;
pub use scripts::{Script, read_script};
pub use space::{Space, TooManyBytes};

// A text spells at most one call at its front.
pub fn spelling_stands()
    ensures { SpellingStands }
{}

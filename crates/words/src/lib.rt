// The words of a text, with their places, and the numbers and literals that words spell.
//
// Spaces and line ends alone divide words. Ahead of the first word, the lines that begin with the letter c are
// comments and hold no words. A scanner gives the words of a text one by one, and none besides; a word is read as a
// number or a literal exactly if it is written as one in decimal, without needless zeros.
#![tactic(auto)]

pub mod literals;
pub mod numbers;
mod scanner;

ghost use Rattle.words.specs.Split.{WordsStand};
ghost use Rattle.words.specs.Numbers.{NumbersStand};

pub use literals::Literal;
pub use numbers::{NumberFault, is_numeral, literal, number, value_of};
pub use scanner::{Scanner, Word};

// The words that a scanner gives are those of the text as they are declared, and the only ones.
pub fn words_stand()
    ensures { WordsStand }
{}

// What is read as a number or a literal is what is written as one.
pub fn numbers_stand()
    ensures { NumbersStand }
{}

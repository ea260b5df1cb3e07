// The text format: which texts there are and which formula each one is, as a grammar over words and lines;
// the rules by which a text is refused, each stated on its own; and the theorem that going through
// the words one by one decides both.
#![tactic(auto)]

mod fault;
mod numbers;
mod place;

ghost use Rattle.grammar.specs.Theorems.{ReadingStands, TextsStand, StoredStands};

pub use fault::{ReadFault, Rule};
pub use place::Place;

// Going through the words one by one gives the right answer to every text.
pub fn reading_stands()
    ensures { ReadingStands }
{}

// Every text has one formula or one refusal, and never two of them.
pub fn texts_stand()
    ensures { TextsStand }
{}

// Which clauses of a text are stored.
pub fn stored_stands()
    ensures { StoredStands }
{}

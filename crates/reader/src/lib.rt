// Reads a whole text into a formula, word by word.
//
// A text that has the format becomes its formula; any other is refused by the earliest rule that it breaks, with its place.
// Nothing is allocated: the arrays hold every text of at most 60,000 bytes.
#![tactic(auto)]

mod clauses;
mod ends;
mod letters;
mod prefixes;
mod steps;

ghost use Rattle.std.specs.Prelude.{◌≡◌};
ghost use Rattle.formula.specs.Views.{Blank};
ghost use Rattle.grammar.specs.Steps.{read_all};
ghost use Rattle.grammar.specs.Theorems.{Answers};
ghost use Rattle.reader.specs.Views.{outcome, filled};

use ends::at_end;
use formula::Formula;
use grammar::{Place, ReadFault, Rule};
use steps::on_word;
use words::Scanner;

// The most bytes that a text may have.
const LIMIT: usize = 60000;

// The formula of the text, exactly where the text has the format with that formula; or the rule by which it is refused,
// with the offset at which it is.
pub fn read(text: &[u8]) -> Result<Formula, ReadFault>
    ensures { Answers text.now (outcome result) }
{
    read_words(text)
}

// The same into a formula of the caller's that says nothing yet, so that none is copied.
// Where the text is refused, the formula may have a part of it.
pub fn read_into(text: &[u8], formula: &mut Formula) -> Result<(), ReadFault>
    requires { Blank formula.old }
    ensures { Answers text.now (filled result formula.new) }
{
    read_words_into(text, formula)
}

// Goes through the words one by one, up to the first that breaks a rule.
fn read_words(text: &[u8]) -> Result<Formula, ReadFault>
    ensures { read_all text.now ≡ outcome result }
{
    let mut draft = Formula::new();
    read_words_into(text, &mut draft)?;
    Ok(draft)
}

// The same, with what the words say in a draft of the caller's.
fn read_words_into(text: &[u8], draft: &mut Formula) -> Result<(), ReadFault>
    requires { Blank draft.old }
    ensures { read_all text.now ≡ filled result draft.new }
{
    if text.len() > LIMIT {
        return Err(ReadFault {
            rule: Rule::TooLong,
            at: LIMIT,
        });
    }
    let mut place = Place::Problem;
    for word in Scanner::new(text) {
        let at = word.at;
        place = on_word(place, word, draft).map_err(|rule| ReadFault { rule, at })?;
    }
    at_end(place, draft, text)
}

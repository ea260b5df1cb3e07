// One word, by the place in which it stands.
ghost use Rattle.std.specs.Prelude.{◌≡◌, ◌<◌};
ghost use Rattle.words.specs.Words.{token};
ghost use Rattle.grammar.specs.Steps.{stepped, joined};
ghost use Rattle.reader.specs.Sound.{Sound, kept};
ghost use Rattle.reader.specs.Views.{draft_of};

use crate::clauses::on_clause_word;
use crate::letters::{is_p, quantifier};
use crate::prefixes::on_variable;
use formula::Formula;
use grammar::{Place, Rule};
use words::{Word, number};

// The place behind the word, with what it adds to the draft, or the rule that it breaks there.
pub fn on_word(place: Place, word: Word, draft: &mut Formula) -> Result<Place, Rule>
    requires sound { Sound place (draft_of draft.old) }
    requires room { kept (draft_of draft.old) < 30000 }
    ensures { stepped place (draft_of draft.old) (token word.entry) ≡ joined result (draft_of draft.new) }
{
    match place {
        Place::Problem if word.first && is_p(word.bytes) => Ok(Place::Format),
        Place::Format if !word.first && word.bytes == b"cnf".as_slice() => Ok(Place::Variables),
        Place::Variables if !word.first => {
            draft.variables = number(word.bytes, 256)?;
            Ok(Place::Count)
        }
        Place::Count if !word.first => {
            draft.declared = number(word.bytes, 2048)?;
            Ok(Place::Line)
        }
        Place::Line if word.first => match quantifier(word.bytes) {
            Some(quantifier) => Ok(Place::FirstVariable(quantifier)),
            None => on_clause_word(true, word.bytes, draft),
        },
        Place::FirstVariable(quantifier) if !word.first => {
            on_variable(quantifier, true, word.bytes, draft)
        }
        Place::NextVariable(quantifier) if !word.first => {
            on_variable(quantifier, false, word.bytes, draft)
        }
        Place::Between => on_clause_word(true, word.bytes, draft),
        Place::Within => on_clause_word(false, word.bytes, draft),
        _ => Err(Rule::Misplaced),
    }
}

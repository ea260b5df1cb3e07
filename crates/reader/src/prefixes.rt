// The words of prefix lines.
ghost use Rattle.std.specs.Prelude.{◌≡◌};
ghost use Rattle.words.specs.Numbers.{read_number};
ghost use Rattle.grammar.specs.Steps.{on_variable, joined};
ghost use Rattle.reader.specs.Sound.{Fine};
ghost use Rattle.reader.specs.Views.{draft_of};

use formula::{Binding, Formula};
use grammar::{Place, Rule};
use qbf::Quantifier;
use words::number;

// A variable of a prefix line, or the 0 that ends the line, but not as its first number.
pub fn on_variable(
    quantifier: Quantifier,
    first: bool,
    bytes: &[u8],
    draft: &mut Formula,
) -> Result<Place, Rule>
    requires { Fine (draft_of draft.old) }
    ensures { on_variable quantifier first (draft_of draft.old) (read_number draft.old.variables bytes.now) ≡ joined result (draft_of draft.new) }
{
    match number(bytes, draft.variables)? {
        0 if first => Err(Rule::Misplaced),
        0 => Ok(Place::Line),
        variable if draft.prefix.position(variable).is_some() => Err(Rule::BoundTwice),
        variable => {
            draft.prefix.push(Binding {
                variable,
                quantifier,
            });
            Ok(Place::NextVariable(quantifier))
        }
    }
}

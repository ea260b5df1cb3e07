// The end of the text.
ghost use Rattle.std.specs.Prelude.{◌≡◌};
ghost use Rattle.grammar.specs.Steps.{finish};
ghost use Rattle.reader.specs.Views.{draft_of, filled};

use formula::Formula;
use grammar::{Place, ReadFault, Rule};

// A text may end behind a finished line of the head, or behind a finished clause, with its last line end.
// The draft is then its formula.
pub fn at_end(place: Place, draft: &Formula, text: &[u8]) -> Result<(), ReadFault>
    ensures { finish place (draft_of draft.now) text.now ≡ filled result draft.now }
{
    let at = text.len();
    if !matches!(place, Place::Line | Place::Between) || !text.ends_with(b"\n") {
        let rule = Rule::Misplaced;
        return Err(ReadFault { rule, at });
    }
    if draft.finished < draft.declared {
        let rule = Rule::ClauseCount;
        return Err(ReadFault { rule, at });
    }
    Ok(())
}

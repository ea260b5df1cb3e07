// Reading the first line, which says how the session is made.
ghost use Rattle.std.specs.Prelude.{◌≡◌, MatchOption, ◌≢◌};
ghost use Rattle.script.specs.Spelling.{memo_word, chooser_word, make_line};
ghost use Rattle.script.specs.Reading.{NoMake, Opened};

use crate::calls::{ChooserKind, Make, MemoKind};
use crate::lines::{after, first_line, split_once};

// The memo that a word names.
fn memo_kind(word: &[u8]) -> Option<MemoKind>
    ensures { MatchOption result ((k : MemoKind) → word.now ≢ memo_word k) (λ k. word.now ≡ memo_word k) }
{
    match word {
        b"blank" => Some(MemoKind::Blank),
        b"slotted" => Some(MemoKind::Slotted),
        b"keeping" => Some(MemoKind::Keeping),
        _ => None,
    }
}

// The chooser that a word names.
fn chooser_kind(word: &[u8]) -> Option<ChooserKind>
    ensures { MatchOption result ((k : ChooserKind) → word.now ≢ chooser_word k) (λ k. word.now ≡ chooser_word k) }
{
    match word {
        b"first" => Some(ChooserKind::First),
        b"busiest" => Some(ChooserKind::Busiest),
        _ => None,
    }
}

// How the session is made, by a line without its end.
fn make_of(line: &[u8]) -> Option<Make>
    ensures { MatchOption result ((m : Make) → line.now ≢ make_line m) (λ m. line.now ≡ make_line m) }
{
    let words = after(line, b"session ")?;
    let (memo, chooser) = split_once(words, b' ')?;
    Some(Make {
        memo: memo_kind(memo)?,
        chooser: chooser_kind(chooser)?,
    })
}

// How the session is made, by the first line of the script, and the place behind that line.
pub fn read_make(script: &[u8]) -> Option<(Make, usize)>
    ensures { MatchOption result (NoMake script.now) (λ p. Opened script.now p.0 p.1) }
{
    let (line, rest) = first_line(script)?;
    let make = make_of(line)?;
    Some((make, script.len() - rest.len()))
}

// Words that are fixed texts or letters.
ghost use Rattle.std.specs.Prelude.{◌≡◌};
ghost use Rattle.std.specs.Str.{bytes_eq};
ghost use Rattle.grammar.specs.Grammar.{p_word};
ghost use Rattle.reader.specs.Letters.{only, quantifier_of};

use qbf::Quantifier;

// The letter of a word that has no more.
fn only_letter(bytes: &[u8]) -> Option<char>
    ensures { result ≡ only bytes.now }
{
    match bytes {
        [letter] => Some(char::from(*letter)),
        _ => None,
    }
}

// Whether a word is the letter p.
pub fn is_p(bytes: &[u8]) -> bool
    ensures { result ≡ bytes_eq bytes.now p_word }
{
    matches!(only_letter(bytes), Some('p'))
}

// The quantifier whose letter the word is.
pub fn quantifier(bytes: &[u8]) -> Option<Quantifier>
    ensures { result ≡ quantifier_of bytes.now }
{
    match only_letter(bytes) {
        Some('a') => Some(Quantifier::Universal),
        Some('e') => Some(Quantifier::Existential),
        _ => None,
    }
}

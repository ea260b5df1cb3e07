// Texts cut at a byte, lines, and what they begin with.
ghost use Rattle.std.specs.Prelude.{◌≡◌, ℕ, true, List, ◌∷◌, ◌++◌, MatchOption, ◌≢◌};
ghost use Rattle.script.specs.Reading.{lacks, unbroken};

// What stands before the first such byte and what follows it; none if the text has no such byte.
pub fn split_once<'a>(text: &'a [u8], byte: u8) -> Option<(&'a [u8], &'a [u8])>
    ensures { MatchOption result (lacks byte text.now ≡ true) (λ p. (lacks byte p.0.now ≡ true) × (text.now ≡ p.0.now ++ byte ∷ p.1.now)) }
{
    let at = text.iter().position(|b| *b == byte)?;
    Some((&text[..at], &text[at + 1..]))
}

// The line at the front of a text, without its end, and what follows it; none if no line ends in the text.
pub fn first_line<'a>(text: &'a [u8]) -> Option<(&'a [u8], &'a [u8])>
    ensures { MatchOption result (unbroken text.now ≡ true) (λ p. (unbroken p.0.now ≡ true) × (text.now ≡ p.0.now ++ 10 ∷ p.1.now)) }
{
    split_once(text, b'\n')
}

// What follows a word at the front of a line; none if the line does not begin with it.
pub fn after<'a>(line: &'a [u8], word: &[u8]) -> Option<&'a [u8]>
    ensures { MatchOption result ((rest : List ℕ) → line.now ≢ word.now ++ rest) (λ rest. line.now ≡ word.now ++ rest.now) }
{
    line.strip_prefix(word)
}

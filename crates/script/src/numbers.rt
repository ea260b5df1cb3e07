// Words read as numbers.
ghost use Rattle.std.specs.Prelude.{◌≡◌, ℕ, ◌^◌, ◌<◌, decimal, MatchOption, ◌≢◌};

use words::{is_numeral, value_of};

// The number that a word spells, if a `usize` holds it.
pub fn number(word: &[u8]) -> Option<usize>
    ensures { MatchOption result ((n : ℕ) → n < 2 ^ 64 → word.now ≢ decimal n) (λ n. (n < 2 ^ 64) × (word.now ≡ decimal n)) }
{
    if !is_numeral(word) {
        return None;
    }
    value_of(word)
}

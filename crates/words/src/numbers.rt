// Words read as numbers and as the literals of clauses.
ghost use Rattle.std.specs.Prelude.{◌≡◌, ◌^◌, ◌<◌, ◌≤◌, true, IfSome, IfOk, SomeIff};
ghost use Rattle.words.specs.Numbers.{all_digits, numeral, value_of, read_number, read_literal};

use crate::literals::Literal;

// Why a word is no number that may stand where it does.
#[derive(Clone, Copy, PartialEq, Eq, Debug)]
pub enum NumberFault {
    NotANumber,
    OutOfRange,
}

fn all_digits(bytes: &[u8]) -> bool
    ensures { result ≡ all_digits bytes.now }
{
    bytes.iter().all(|b| b.is_ascii_digit())
}

// Whether a word is a number in decimal, without needless zeros, however large.
pub fn is_numeral(bytes: &[u8]) -> bool
    ensures { result ≡ numeral bytes.now }
{
    match bytes {
        [] | [b'0', _, ..] => false,
        _ => all_digits(bytes),
    }
}

// The value of the digits, if a `usize` holds it.
pub fn value_of(digits: &[u8]) -> Option<usize>
    requires { all_digits digits.now ≡ true }
    ensures { SomeIff result (value_of digits.now < 2 ^ 64) (value_of digits.now) }
{
    let mut n: usize = 0;
    for b in digits {
        n = n.checked_mul(10)?.checked_add(usize::from(*b - b'0'))?;
    }
    Some(n)
}

// The number that a word spells, if it is at most `max`.
pub fn number(bytes: &[u8], max: u16) -> Result<u16, NumberFault>
    ensures value { result ≡ read_number max bytes.now }
    ensures bound { IfOk result (λ n. n ≤ max) }
{
    if !is_numeral(bytes) {
        return Err(NumberFault::NotANumber);
    }
    if bytes.len() > 4 {
        return Err(NumberFault::OutOfRange);
    }
    match value_of(bytes) {
        Some(n) if n <= usize::from(max) => Ok(n as u16),
        _ => Err(NumberFault::OutOfRange),
    }
}

// The literal that a word spells, if its variable is at most `max`; none if the word is 0, which ends a clause.
pub fn literal(bytes: &[u8], max: u16) -> Result<Option<Literal>, NumberFault>
    ensures value { result ≡ read_literal max bytes.now }
    ensures bound { IfOk result (λ o. IfSome o (λ l. (0 < l.variable) × (l.variable ≤ max))) }
{
    let [first, rest @ ..] = bytes else {
        return Err(NumberFault::NotANumber);
    };
    match char::from(*first) {
        '-' => match number(rest, max)? {
            0 => Err(NumberFault::NotANumber),
            variable => Ok(Some(Literal {
                variable,
                negative: true,
            })),
        },
        _ => match number(bytes, max)? {
            0 => Ok(None),
            variable => Ok(Some(Literal {
                variable,
                negative: false,
            })),
        },
    }
}

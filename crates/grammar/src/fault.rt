// What is wrong with a text that is refused, and where.
ghost use Rattle.std.specs.Prelude.{◌≡◌, Some};
ghost use Rattle.grammar.specs.Rules.{number_of, refusal};

use std::fmt;

// The rules that a text can break, each with its fixed number.
#[derive(Clone, Copy, PartialEq, Eq, Debug)]
pub enum Rule {
    // more than 60,000 bytes
    TooLong = 1,
    // a word that may not stand there, or an end with the problem line missing or a line or clause unfinished
    Misplaced = 2,
    // a number out of range
    OutOfRange = 3,
    // a variable bound twice
    BoundTwice = 4,
    // a literal whose variable is not bound
    Unbound = 5,
    // a clause after as many as were declared, or an end with fewer
    ClauseCount = 6,
}

impl Rule {
    pub fn number(self) -> u8
        ensures { result ≡ number_of self }
    {
        self as u8
    }
}

// The rule that is broken, and the byte offset of the word at fault, or the text's length where it ends too soon.
#[derive(Clone, Copy, PartialEq, Eq, Debug)]
pub struct ReadFault {
    pub rule: Rule,
    pub at: usize,
}

impl fmt::Display for ReadFault {
    ghost output = { λ fault. Some (refusal fault) };

    fn fmt<W: fmt::Write>(&self, f: &mut fmt::Formatter<W>) -> fmt::Result {
        let number = self.rule.number();
        let at = self.at;
        write!(f, "refused {number} at {at}")
    }
}

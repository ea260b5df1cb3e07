// The literals of clauses.

// A variable, counted from 1, or its negation.
#[derive(Clone, Copy, PartialEq, Eq, Debug)]
pub struct Literal {
    pub variable: u16,
    pub negative: bool,
}

// The terms of quantified formulas that the code and the definitions share. What a formula's value is, and how a set is reduced,
// walked and decided over a node table and a memo, is defined in specs/.
#![tactic(auto)]

ghost use Rattle.std.specs.Prelude.{◌≡◌};
ghost use Rattle.qbf.specs.Literals.{complement};

// Who chooses a variable's value: an existential one is chosen for the formula, a universal one against it.
#[derive(Clone, Copy, PartialEq, Eq, Debug)]
pub enum Quantifier {
    Existential,
    Universal,
}

// What a chooser is shown of a variable: its prefix position, counted from 1,
// and the numbers of clauses with its positive and with its negative literal.
#[derive(Clone, Copy, PartialEq, Eq, Debug)]
pub struct Candidate {
    pub position: u16,
    pub positive: u16,
    pub negative: u16,
}

// The literal of the same variable with the other sign, by its code: the two codes differ in the lowest bit.
pub fn opposite(literal: u16) -> u16
    ensures { result ≡ complement literal }
{
    literal ^ 1
}

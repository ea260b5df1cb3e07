// The prefix: the bound variables with their quantifiers, outermost first.
mod work;

use arrays::FixedList;
use qbf::Quantifier;

#[derive(Clone, Copy, PartialEq, Eq, Debug)]
pub struct Binding {
    pub variable: u16,
    pub quantifier: Quantifier,
}

// Two prefixes are equal if they bind the same variables in the same order, with the same quantifiers.
#[derive(Clone, Copy, PartialEq, Eq)]
pub struct Prefix {
    bindings: FixedList<Binding, 256>,
}

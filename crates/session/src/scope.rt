// What is loaded.
use formula::Prefix;

// A prefix, and the formula over it, unless its sets found no room.
#[derive(Clone, Copy)]
pub struct Scope {
    pub prefix: Prefix,
    pub formula: Option<Stored>,
}

// The V of the formula's problem line, and the number of its clause set.
#[derive(Clone, Copy)]
pub struct Stored {
    pub variables: u16,
    pub number: u16,
}

// The calls of a script as data.
pub use crate::space::Space;

// Which memo a session has.
#[derive(Clone, Copy, PartialEq, Eq, Debug)]
pub enum MemoKind {
    Blank,
    Slotted,
    Keeping,
}

// Which chooser a session has.
#[derive(Clone, Copy, PartialEq, Eq, Debug)]
pub enum ChooserKind {
    First,
    Busiest,
}

// How a session is made.
#[derive(Clone, Copy, PartialEq, Eq, Debug)]
pub struct Make {
    pub memo: MemoKind,
    pub chooser: ChooserKind,
}

// A call on a session: the text of a load, the allowance of a decision, the space for what is written.
#[derive(Clone, Copy, PartialEq, Eq, Debug)]
pub enum Call<'a> {
    Load(&'a [u8]),
    Decide(u32),
    Write(Space),
    Forget,
}

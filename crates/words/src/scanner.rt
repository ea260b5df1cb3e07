// A place in a text, from which the words that are left can be told.
ghost use Rattle.std.specs.Prelude.{◌≤◌, length};

mod scan;

// A word: the offset of its first byte, its bytes, and whether it is the first word of its line.
#[derive(Clone, Copy)]
pub struct Word<'a> {
    pub at: usize,
    pub bytes: &'a [u8],
    pub first: bool,
}

// Where the next word is looked for, and whether no word stands before that on its line.
#[derive(Drop)]
pub struct Scanner<'a> {
    text: &'a [u8],
    pos: usize,
    fresh: bool,
    ghost within: { pos ≤ length text.now },
}

// What a line ahead of the first word is so far.
#[derive(Clone, Copy)]
enum Line {
    Start,
    Blank,
    Comment,
}

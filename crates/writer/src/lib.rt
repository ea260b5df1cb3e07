// Writes a formula as a text: the problem line, a line for each block of the prefix, and a line for each clause of a set.
// The text goes to the front of the caller's buffer and its length is told; the rest of the buffer stays as it is.
// A buffer that is too short is refused with the length that is needed, and not touched.
#![tactic(auto)]

mod clauses;
mod lines;
mod pen;
mod whole;

pub use whole::{TooShort, write};

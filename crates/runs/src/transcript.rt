// What was answered in a run.
use crate::answer::Answer;

// The answers, oldest first, and the texts that were written, one behind the other.
#[derive(Drop)]
pub struct Transcript {
    pub answers: Vec<Answer>,
    pub texts: Vec<u8>,
}

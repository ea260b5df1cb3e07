// Tries the bounds of a session from both sides, and prints what came: the greatest V, the greatest C, the longest text, the
// largest allowance, and one more of each.
#![tactic(auto)]

use choosers::first::First;
use memos::keeping::Keeping;
use runs::Answer;
use session::Session;
use std::io;

// One byte more than a text may have.
const MOST: usize = 60001;

// What a new session answers to a load of the text.
fn load(text: &[u8]) -> Answer {
    let mut session = Session::new(Keeping::new(), First);
    Answer::Loading(session.load(text))
}

// What a session answers that has loaded a text without variables and clauses.
fn decide(allowance: u32) -> Answer {
    let mut session = Session::new(Keeping::new(), First);
    let _ = session.load(b"p cnf 0 0\n");
    Answer::Decision(session.decide(allowance))
}

// A text of so many bytes, or of all bytes that there are: a comment, and a problem line at its end.
fn load_long(bytes: usize) -> Answer {
    let ending = b"\np cnf 0 0\n";
    let mut text = [b'c'; MOST];
    let text = &mut text[..bytes.min(MOST)];
    if let Some(start) = text.len().checked_sub(ending.len()) {
        text[start..].copy_from_slice(ending);
    }
    load(text)
}

// A problem line of 13 bytes, and then 2,048 empty clauses, each on a line of its own.
fn load_clauses(line: &[u8; 13]) -> Answer {
    let mut text = [b'0'; 13 + 2 * 2048];
    let (front, clauses) = text.split_at_mut(line.len());
    front.copy_from_slice(line);
    for clause in clauses.chunks_exact_mut(2) {
        clause[1] = b'\n';
    }
    load(&text)
}

fn main(rt: HostRuntime) -> io::Result<()> {
    println!(rt; "V 256: {}", load(b"p cnf 256 0\n"))?;
    println!(rt; "V 257: {}", load(b"p cnf 257 0\n"))?;
    println!(rt; "C 2048: {}", load_clauses(b"p cnf 0 2048\n"))?;
    println!(rt; "C 2049: {}", load_clauses(b"p cnf 0 2049\n"))?;
    println!(rt; "60000 bytes: {}", load_long(60000))?;
    println!(rt; "60001 bytes: {}", load_long(60001))?;
    println!(rt; "allowance 1000000: {}", decide(1000000))?;
    println!(rt; "allowance 1000001: {}", decide(1000001))
}

// Reads a formula text from standard input, and prints it in the writer's form; or `c refused N at P` where the reader
// refuses it, with the number of the rule and the offset, or `c refused 10 at 0` where the table cannot hold its clauses.
#![tactic(auto)]

use input::{MOST, fill};
use normal::{Unwritten, normalized};
use std::io;
use std::io::Write;

fn main(rt: HostRuntime) -> io::Result<()> {
    let mut buffer = [0u8; MOST];
    let len = fill(&rt, &mut buffer)?;
    let mut written = [0u8; MOST];
    match normalized(&buffer[..len], &mut written) {
        Ok(len) => rt.stdout().write_all(&written[..len]),
        // What is written is no longer than what was read, so the buffer is never too short.
        Err(Unwritten::TooShort(_)) => unreachable(),
        Err(unwritten) => println!(rt; "c {unwritten}"),
    }
}

// Reads a formula text from standard input and prints its verdict with V and C of its problem line, `s cnf R V C`,
// and the splits, `c splits N`; or only `c refused N at P` for a refusal.
#![tactic(auto)]

use input::{MOST, fill};
use std::io;
use zulfringa::report_on;

fn main(rt: HostRuntime) -> io::Result<()> {
    let mut buffer = [0u8; MOST];
    let len = fill(&rt, &mut buffer)?;
    println!(rt; "{}", report_on(&buffer[..len]))
}

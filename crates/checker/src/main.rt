// Reads a formula text from standard input, and prints what the reader answers:
// `c read V C` for an accepted text, `c refused N at P` for a refusal.
#![tactic(auto)]

use input::{MOST, fill};
use reader::read;
use std::io;

fn main(rt: HostRuntime) -> io::Result<()> {
    let mut buffer = [0u8; MOST];
    let len = fill(&rt, &mut buffer)?;
    match read(&buffer[..len]) {
        Ok(formula) => {
            // Printed as they are, they would hold the whole formula on the stack once more.
            let variables = formula.variables;
            let declared = formula.declared;
            println!(rt; "c read {variables} {declared}")
        }
        Err(fault) => println!(rt; "c {fault}"),
    }
}

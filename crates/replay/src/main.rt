// Reads a script from standard input, carries out its calls on a new session, and prints the answers, one line each:
// `loaded V C`, `verdict R splits N`, `wrote L` with the L bytes behind it, `forgot`, or `refused N at P`. A script that is not
// well formed ends with the line `script not well formed at byte P`; nothing from there on is carried out.
#![tactic(auto)]

use replaying::output;
use std::io;
use std::io::{Read, Write};

fn main(rt: HostRuntime) -> io::Result<()> {
    let mut script = Vec::new(rt.alloc());
    rt.stdin().read_to_end(&mut script)?;
    let answers = output(rt.alloc(), script.as_slice())?;
    rt.stdout().write_all(answers.as_slice())
}

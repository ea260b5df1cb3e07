// Refused in a prefix line or behind one. The problem line has 10 bytes, so that the first prefix line begins at 10
// and its first variable at 12.
use crate::outcomes::{Refused, expect_all_refused};
use std::test::Fail;

const ROWS: [Refused; 36] = [
    // the text ends behind the quantifier
    Refused("p cnf 3 0\ne\n", 2, 12),
    // the text ends and the line has no 0
    Refused("p cnf 3 0\ne 1\n", 2, 14),
    // the line is finished by its 0, and has no line end
    Refused("p cnf 3 0\ne 1 0", 2, 15),
    // the first variable is the first word after an unfinished line
    Refused("p cnf 3 0\ne\n1 0\n", 2, 12),
    // the second variable is the first word after an unfinished line
    Refused("p cnf 3 0\ne 1\n2 0\n", 2, 14),
    // the 0 is the first word after an unfinished line; a blank line between changes nothing
    Refused("p cnf 3 0\ne 1\n\n 0\n", 2, 16),
    // a second prefix line begins and the first has no 0
    Refused("p cnf 3 0\ne 1\na 2 0\n", 2, 14),
    // a line has one variable at least
    Refused("p cnf 3 0\ne 0\n", 2, 12),
    // also where V is 0
    Refused("p cnf 0 0\na 0\n", 2, 12),
    // a word behind the finished line
    Refused("p cnf 3 0\ne 1 0 0\n", 2, 16),
    // another prefix line behind the finished one
    Refused("p cnf 3 0\ne 1 0 a 2 0\n", 2, 16),
    // a clause behind it
    Refused("p cnf 3 1\ne 1 0 1 0\n", 2, 16),
    // a comment behind it
    Refused("p cnf 3 0\ne 1 0 c\n", 2, 16),
    // a comment on the next line, but behind the problem line
    Refused("p cnf 3 0\na 1 0\nc note\n", 2, 16),
    // the quantifier is a word of its own
    Refused("p cnf 3 0\ne1 0\n", 2, 10),
    // a tab does not divide it from the variable
    Refused("p cnf 3 0\ne\t1 0\n", 2, 10),
    // the letter is small
    Refused("p cnf 3 0\nA 1 0\n", 2, 10),
    // the quantifier is one letter
    Refused("p cnf 3 0\nae 1 0\n", 2, 10),
    // one quantifier to a line
    Refused("p cnf 3 0\na e 1 0\n", 2, 12),
    // a variable has no minus
    Refused("p cnf 3 0\ne -1 0\n", 2, 12),
    // nor has a later one
    Refused("p cnf 3 0\ne 1 -2 0\n", 2, 14),
    // nor has the 0
    Refused("p cnf 3 0\ne 1 -0\n", 2, 14),
    // there is no plus
    Refused("p cnf 3 0\ne +1 0\n", 2, 12),
    // a needless 0
    Refused("p cnf 3 0\ne 01 0\n", 2, 12),
    // the 0 has one digit
    Refused("p cnf 3 0\ne 1 00\n", 2, 14),
    // a carriage return behind the 0
    Refused("p cnf 3 0\ne 1 0\r\n", 2, 14),
    // variables go to V
    Refused("p cnf 3 0\ne 4 0\n", 3, 12),
    // later ones too
    Refused("p cnf 3 0\ne 3 4 0\n", 3, 14),
    // where V is 0 there is no variable
    Refused("p cnf 0 0\ne 1 0\n", 3, 12),
    // five digits
    Refused("p cnf 3 0\ne 10000 0\n", 3, 12),
    // a minus makes it no number, which is told before a range
    Refused("p cnf 3 0\ne -10000 0\n", 2, 12),
    // bound twice on one line
    Refused("p cnf 3 0\ne 1 1 0\n", 4, 14),
    // bound again by a line of the same quantifier
    Refused("p cnf 3 0\ne 1 0\ne 1 0\n", 4, 18),
    // bound again by a line of the other quantifier, behind a new variable
    Refused("p cnf 3 0\na 1 2 0\ne 3 2 0\n", 4, 22),
    // the second 1 stands ahead of the 4, which is out of range
    Refused("p cnf 3 0\ne 1 2 3 1 4 0\n", 4, 18),
    // and here the 4 stands ahead of it
    Refused("p cnf 3 0\ne 1 2 3 4 1 0\n", 3, 18),
];

// V 256: the problem line has 12 bytes, and the first variable stands at 14.
const GREATEST: [Refused; 2] = [
    // one above V
    Refused("p cnf 256 0\na 257 0\n", 3, 14),
    // V is in range, and bound twice
    Refused("p cnf 256 0\na 256 256 0\n", 4, 18),
];

// A refusal is shown with the rule's number and the offset.
#[test]
fn shown(rt: HostRuntime) -> Result<(), Fail> {
    let Err(fault) = reader::read(b"p cnf 3 0\ne 1 1 0\n") else {
        return Err(Fail::new(format_args!("not refused")));
    };
    let text = format!(in rt.alloc(); "{fault}")?;
    assert_eq!(rt; text.as_str(), "refused 4 at 14");
    Ok(())
}

#[test]
fn prefix_lines(rt: HostRuntime) {
    expect_all_refused(&rt, &ROWS);
    expect_all_refused(&rt, &GREATEST);
}

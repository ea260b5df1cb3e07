// Refused ahead of the problem line and in it.
use crate::outcomes::{Refused, expect_all_refused};

// Ahead of the problem line stand comments and blank lines alone.
const AHEAD: [Refused; 16] = [
    // an empty text has no problem line
    Refused("", 2, 0),
    // nor has a blank line
    Refused("\n", 2, 1),
    // nor have spaces without a line end
    Refused("  ", 2, 2),
    // nor has a comment
    Refused("c note\n", 2, 7),
    // nor has one that the text's end cuts off
    Refused("c", 2, 1),
    // a line whose first byte is c is a comment, whatever its first word
    Refused("cnf 0 0\n", 2, 8),
    // and so is what follows it on its line
    Refused("c p cnf 0 0\n", 2, 12),
    // with a space ahead of it, c is a word, which is not p
    Refused(" c note\np cnf 0 0\n", 2, 1),
    // only the small letter begins a comment
    Refused("C note\np cnf 0 0\n", 2, 0),
    // another word than p, behind a comment and a blank line
    Refused("c note\n\nx\np cnf 0 0\n", 2, 8),
    // a tab is a byte of a word: the first word is a tab and p
    Refused("\tp cnf 0 0\n", 2, 0),
    // a line of a tab is not blank
    Refused(" \t\np cnf 0 0\n", 2, 1),
    // nor is one of a carriage return
    Refused("\r\np cnf 0 0\n", 2, 0),
    // nor is one of a NUL
    Refused("\n\0\np cnf 0 0\n", 2, 1),
    // nor does a form feed divide words
    Refused("\x0cp cnf 0 0\n", 2, 0),
    // a byte order mark is part of the first word
    Refused("\u{feff}p cnf 0 0\n", 2, 0),
];

// The problem line has four words, and stands alone on its line.
const PROBLEM_LINE: [Refused; 25] = [
    // the letter is small
    Refused("P cnf 0 0\n", 2, 0),
    // p is a word of its own
    Refused("pcnf 0 0\n", 2, 0),
    // a tab does not divide words
    Refused("p\tcnf 0 0\n", 2, 0),
    // the text ends in the line
    Refused("p", 2, 1),
    // the text ends and the line has only one word of its four
    Refused("p\n", 2, 2),
    // the line is not finished, and cnf is the first word after it
    Refused("p\ncnf 0 0\n", 2, 2),
    // no comment stands within the line
    Refused("p\n\nc note\ncnf 0 0\n", 2, 3),
    // cnf is written small
    Refused("p CNF 0 0\n", 2, 2),
    // cnf is a whole word
    Refused("p cnf0 0\n", 2, 2),
    // cnf may not be left out
    Refused("p 0 0\n", 2, 2),
    // the text ends behind cnf
    Refused("p cnf\n", 2, 6),
    // V is the first word after an unfinished line
    Refused("p cnf\n0 0\n", 2, 6),
    // the text ends behind V
    Refused("p cnf 0\n", 2, 8),
    // C is the first word after an unfinished line
    Refused("p cnf 0\n\n 0\n", 2, 10),
    // the line has no line end
    Refused("p cnf 0 0", 2, 9),
    // nor has it one behind spaces
    Refused("p cnf 0 0  ", 2, 11),
    // the last line is blank and has no line end
    Refused("p cnf 0 0\n ", 2, 11),
    // a fifth word on the line
    Refused("p cnf 0 0 0\n", 2, 10),
    // a prefix line begins on a line of its own
    Refused("p cnf 1 1 e 1 0\n1 0\n", 2, 10),
    // so does the first clause
    Refused("p cnf 0 1 0\n", 2, 10),
    // a comment stands on a line of its own
    Refused("p cnf 0 0 c note\n", 2, 10),
    // and not behind the problem line
    Refused("p cnf 0 0\nc note\n", 2, 10),
    // a second problem line
    Refused("p cnf 0 0\np cnf 0 0\n", 2, 10),
    // C is a 0 and a carriage return
    Refused("p cnf 0 0\r\n", 2, 8),
    // V is a 0 and a NUL
    Refused("p cnf 0\0 0\n", 2, 6),
];

// V goes to 256 and C to 2,048, each a number without a sign.
const NUMBERS: [Refused; 20] = [
    // no number
    Refused("p cnf v 0\n", 2, 6),
    // a number and more
    Refused("p cnf 1x 0\n", 2, 6),
    // a minus belongs to literals of clauses alone
    Refused("p cnf -1 0\n", 2, 6),
    // also at C
    Refused("p cnf 1 -1\n", 2, 8),
    // a 0 has no minus
    Refused("p cnf 0 -0\n", 2, 8),
    // there is no plus
    Refused("p cnf +1 0\n", 2, 6),
    // a lone minus is no number
    Refused("p cnf - 0\n", 2, 6),
    // 0 is written with one digit
    Refused("p cnf 00 0\n", 2, 6),
    // no number begins with a needless 0
    Refused("p cnf 01 0\n", 2, 6),
    // also at C
    Refused("p cnf 1 01\n", 2, 8),
    // V goes to 256
    Refused("p cnf 257 0\n", 3, 6),
    // C goes to 2,048
    Refused("p cnf 256 2049\n", 3, 10),
    // both are out of range, and V stands first
    Refused("p cnf 257 2049\n", 3, 6),
    // four digits, and above 256
    Refused("p cnf 9999 0\n", 3, 6),
    // five digits
    Refused("p cnf 10000 0\n", 3, 6),
    // five digits at C
    Refused("p cnf 0 10000\n", 3, 8),
    // 2^16 more than 1, which is not taken for 1
    Refused("p cnf 65537 0\n", 3, 6),
    // 2^64 more than 1
    Refused("p cnf 18446744073709551617 0\n", 3, 6),
    // five digits with a needless 0 are no number, which is told before a range
    Refused("p cnf 00256 0\n", 2, 6),
    // neither are five digits and a letter
    Refused("p cnf 10000x 0\n", 2, 6),
];

#[test]
fn ahead_of_the_problem_line(rt: HostRuntime) {
    expect_all_refused(&rt, &AHEAD);
}

#[test]
fn problem_line(rt: HostRuntime) {
    expect_all_refused(&rt, &PROBLEM_LINE);
}

#[test]
fn numbers_of_the_problem_line(rt: HostRuntime) {
    expect_all_refused(&rt, &NUMBERS);
}

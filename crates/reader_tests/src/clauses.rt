// Refused at the words of clauses. In most rows V is 3, C is 1, the variables 1 and 2 are bound, 3 is not,
// and the clause begins at 18.
use crate::outcomes::{Refused, expect_all_refused};

// Words that are no literals of the format.
const WORDS: [Refused; 26] = [
    // a 0 has no minus
    Refused("p cnf 3 1\ne 1 2 0\n-0\n", 2, 18),
    // also behind a literal
    Refused("p cnf 3 1\ne 1 2 0\n1 -0\n", 2, 20),
    // a lone minus
    Refused("p cnf 3 1\ne 1 2 0\n- 1 0\n", 2, 18),
    // two minuses
    Refused("p cnf 3 1\ne 1 2 0\n--1 0\n", 2, 18),
    // a minus after the digits
    Refused("p cnf 3 1\ne 1 2 0\n1- 0\n", 2, 18),
    // a plus
    Refused("p cnf 3 1\ne 1 2 0\n+1 0\n", 2, 18),
    // a needless 0
    Refused("p cnf 3 1\ne 1 2 0\n01 0\n", 2, 18),
    // a needless 0 after a minus
    Refused("p cnf 3 1\ne 1 2 0\n-01 0\n", 2, 18),
    // a needless 0 in the end of the clause
    Refused("p cnf 3 1\ne 1 2 0\n1 00\n", 2, 20),
    // five digits with a needless 0, which is told before a range
    Refused("p cnf 3 1\ne 1 2 0\n-00001 0\n", 2, 18),
    // a comma
    Refused("p cnf 3 1\ne 1 2 0\n1,2 0\n", 2, 18),
    // a letter
    Refused("p cnf 3 1\ne 1 2 0\n1 x 0\n", 2, 20),
    // a byte above 127
    Refused("p cnf 3 1\ne 1 2 0\n1 2\u{b2} 0\n", 2, 20),
    // a tab between literal and 0 makes one word of them
    Refused("p cnf 3 1\ne 1 2 0\n1\t0\n", 2, 18),
    // a carriage return at a line's end
    Refused("p cnf 3 1\ne 1 2 0\n1 2\r\n0\n", 2, 20),
    // a carriage return after the 0
    Refused("p cnf 3 1\ne 1 2 0\n1 0\r\n", 2, 20),
    // a NUL
    Refused("p cnf 3 1\ne 1 2 0\n1 2\0 0\n", 2, 20),
    // a quantifier's letter in a clause
    Refused("p cnf 3 1\ne 1 2 0\n1 e 0\n", 2, 20),
    // a prefix line in a clause
    Refused("p cnf 3 1\ne 1 2 0\n1\na 3 0\n0\n", 2, 20),
    // a prefix line behind a clause
    Refused("p cnf 3 2\ne 1 2 0\n1 0\na 3 0\n3 0\n", 2, 22),
    // a comment in a clause
    Refused("p cnf 3 1\ne 1 2 0\n1\nc note\n0\n", 2, 20),
    // a comment behind a clause
    Refused("p cnf 3 1\ne 1 2 0\n1 0\nc note\n", 2, 22),
    // the text ends in the clause
    Refused("p cnf 3 1\ne 1 2 0\n1\n", 2, 20),
    // it ends in the clause and in a line
    Refused("p cnf 3 1\ne 1 2 0\n1 -2", 2, 22),
    // the clause is finished, and its line has no line end
    Refused("p cnf 3 1\ne 1 2 0\n1 0", 2, 21),
    // the text ends behind blank lines, still in the clause
    Refused("p cnf 3 1\ne 1 2 0\n1\n\n \n", 2, 23),
];

// Literals of variables that are not there, or not bound.
const VARIABLES: [Refused; 15] = [
    // one above V
    Refused("p cnf 3 1\ne 1 2 0\n4 0\n", 3, 18),
    // its negation
    Refused("p cnf 3 1\ne 1 2 0\n-4 0\n", 3, 18),
    // behind another literal
    Refused("p cnf 3 1\ne 1 2 0\n1 4 0\n", 3, 20),
    // five digits
    Refused("p cnf 3 1\ne 1 2 0\n10000 0\n", 3, 18),
    // five digits after a minus
    Refused("p cnf 3 1\ne 1 2 0\n-10000 0\n", 3, 18),
    // 2^16 more than 1, which is not taken for 1
    Refused("p cnf 3 1\ne 1 2 0\n65537 0\n", 3, 18),
    // where V is 0 each variable is out of range, which is told before it is not bound
    Refused("p cnf 0 1\n1 0\n", 3, 10),
    // V 256: one above it
    Refused("p cnf 256 1\ne 1 0\n-257 0\n", 3, 18),
    // V 256: V itself, which is not bound
    Refused("p cnf 256 1\ne 1 0\n-256 0\n", 5, 18),
    // not bound
    Refused("p cnf 3 1\ne 1 2 0\n3 0\n", 5, 18),
    // its negation
    Refused("p cnf 3 1\ne 1 2 0\n-3 0\n", 5, 18),
    // behind another literal
    Refused("p cnf 3 1\ne 1 2 0\n1 -3 0\n", 5, 20),
    // there is no prefix
    Refused("p cnf 1 1\n1 0\n", 5, 10),
    // the 3 stands ahead of the 4, which is out of range
    Refused("p cnf 3 1\ne 1 2 0\n3 4 0\n", 5, 18),
    // and here the 4 stands ahead of it
    Refused("p cnf 3 1\ne 1 2 0\n4 3 0\n", 3, 18),
];

#[test]
fn words_of_clauses(rt: HostRuntime) {
    expect_all_refused(&rt, &WORDS);
}

#[test]
fn variables_of_clauses(rt: HostRuntime) {
    expect_all_refused(&rt, &VARIABLES);
}

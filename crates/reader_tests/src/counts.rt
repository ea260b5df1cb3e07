// Refused for the number of clauses, or for another rule where a clause too many would begin or the text ends.
use crate::outcomes::{Refused, expect_all_refused};

// A clause after C others is told at its first word, but another rule that is broken there has a lower number.
const TOO_MANY: [Refused; 18] = [
    // C is 0, and an empty clause begins
    Refused("p cnf 0 0\n0\n", 6, 10),
    // C is 0, and a literal begins a clause
    Refused("p cnf 1 0\ne 1 0\n1 0\n", 6, 16),
    // one clause too many, on a line of its own
    Refused("p cnf 3 1\ne 1 2 0\n1 0\n2 0\n", 6, 22),
    // on the same line
    Refused("p cnf 3 1\ne 1 2 0\n1 0 -2 0\n", 6, 22),
    // behind an empty clause
    Refused("p cnf 0 1\n0 0\n", 6, 12),
    // a repeated clause counts
    Refused("p cnf 3 1\ne 1 2 0\n1 0\n1 0\n", 6, 22),
    // so does one with both signs of a variable
    Refused("p cnf 1 1\ne 1 0\n1 -1 0\n1 0\n", 6, 23),
    // the clause too many is told at its first word, although it is not finished
    Refused("p cnf 3 1\ne 1 2 0\n1 0\n2", 6, 22),
    // and although a later word of it breaks a rule of a lower number
    Refused("p cnf 3 1\ne 1 2 0\n1 0\n2 x 4 0\n", 6, 22),
    // a word that is no literal
    Refused("p cnf 3 1\ne 1 2 0\n1 0\nx 0\n", 2, 22),
    // a 0 with a minus
    Refused("p cnf 3 1\ne 1 2 0\n1 0\n-0\n", 2, 22),
    // a quantifier's letter
    Refused("p cnf 3 1\ne 1 2 0\n1 0\ne 3 0\n", 2, 22),
    // a literal out of range
    Refused("p cnf 3 1\ne 1 2 0\n1 0\n4 0\n", 3, 22),
    // a literal whose variable is not bound
    Refused("p cnf 3 1\ne 1 2 0\n1 0\n-3 0\n", 5, 22),
    // C is 0, and the word is no literal
    Refused("p cnf 2 0\n-0\n", 2, 10),
    // C is 0, and the literal is out of range
    Refused("p cnf 2 0\n3 0\n", 3, 10),
    // C is 0, and the variable is not bound
    Refused("p cnf 2 0\n1 0\n", 5, 10),
    // C is 0, and the clause stands behind a prefix line on its line
    Refused("p cnf 1 0\ne 1 0 1 0\n", 2, 16),
];

// An end with fewer than C clauses is told at the text's length, but an unfinished line or clause has a lower number.
const TOO_FEW: [Refused; 11] = [
    // no prefix and no clause
    Refused("p cnf 0 1\n", 6, 10),
    // no clause behind the prefix
    Refused("p cnf 1 1\ne 1 0\n", 6, 16),
    // the greatest C
    Refused("p cnf 0 2048\n", 6, 13),
    // one clause of two
    Refused("p cnf 1 2\ne 1 0\n1 0\n", 6, 20),
    // blank lines behind it belong to the text
    Refused("p cnf 1 2\ne 1 0\n1 0\n\n  \n", 6, 24),
    // two clauses of three, on one line
    Refused("p cnf 0 3\n0 0\n", 6, 14),
    // the problem line has no line end
    Refused("p cnf 0 1", 2, 9),
    // the prefix line is not finished
    Refused("p cnf 1 1\ne 1\n", 2, 14),
    // the prefix line has no line end
    Refused("p cnf 1 1\ne 1 0", 2, 15),
    // the second clause is not finished, and there is no third
    Refused("p cnf 1 3\ne 1 0\n1 0\n1\n", 2, 22),
    // the line of the first clause has no line end
    Refused("p cnf 1 2\ne 1 0\n1 0", 2, 19),
];

#[test]
fn too_many_clauses(rt: HostRuntime) {
    expect_all_refused(&rt, &TOO_MANY);
}

#[test]
fn too_few_clauses(rt: HostRuntime) {
    expect_all_refused(&rt, &TOO_FEW);
}

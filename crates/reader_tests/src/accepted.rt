// Texts of the format, each with its whole formula.
use crate::outcomes::{Accepted, expect_all_accepted, expect_formula};
use qbf::Quantifier::{Existential, Universal};
use std::test::Fail;

const ROWS: [Accepted; 21] = [
    // the shortest text: no variable, no prefix, no clause
    Accepted {
        text: "p cnf 0 0\n",
        variables: 0,
        declared: 0,
        prefix: &[],
        clauses: &[],
    },
    // a lone 0 is the empty clause
    Accepted {
        text: "p cnf 0 1\n0\n",
        variables: 0,
        declared: 1,
        prefix: &[],
        clauses: &[&[]],
    },
    // a room with two prefix lines: 1, 2 and 3 stand first, second and third, with codes 0 and 1, 2 and 3, 4 and 5
    Accepted {
        text: "p cnf 3 3\na 1 2 0\ne 3 0\n1 2 3 0\n-1 2 3 0\n-2 -3 0\n",
        variables: 3,
        declared: 3,
        prefix: &[(Universal, 1), (Universal, 2), (Existential, 3)],
        clauses: &[&[0, 2, 4], &[1, 2, 4], &[3, 5]],
    },
    // the code goes by the place in the prefix, not by the variable's number: 2 is outermost here
    Accepted {
        text: "p cnf 2 2\ne 2 0\na 1 0\n1 2 0\n-1 -2 0\n",
        variables: 2,
        declared: 2,
        prefix: &[(Existential, 2), (Universal, 1)],
        clauses: &[&[2, 0], &[3, 1]],
    },
    // neighbouring lines may have one quantifier; 4 is not bound, and no literal needs it
    Accepted {
        text: "p cnf 5 1\ne 3 0\ne 1 5 0\na 2 0\n-3 -5 2 0\n",
        variables: 5,
        declared: 1,
        prefix: &[
            (Existential, 3),
            (Existential, 1),
            (Existential, 5),
            (Universal, 2),
        ],
        clauses: &[&[1, 5, 6]],
    },
    // a prefix and no clause
    Accepted {
        text: "p cnf 2 0\na 2 0\ne 1 0\n",
        variables: 2,
        declared: 0,
        prefix: &[(Universal, 2), (Existential, 1)],
        clauses: &[],
    },
    // comments: a lone c, a word that begins with c, bytes that no word may have, and what looks like other lines
    Accepted {
        text: "c\ncnf 9 9\nc\t\r\0\u{ff}\nc p cnf 3 3\ncp cnf 4 4\np cnf 1 1\ne 1 0\n1 0\n",
        variables: 1,
        declared: 1,
        prefix: &[(Existential, 1)],
        clauses: &[&[0]],
    },
    // blank lines, empty or of spaces, and comments in turn ahead of the problem line
    Accepted {
        text: "\nc one\n  \nc two\n\n\np cnf 0 0\n",
        variables: 0,
        declared: 0,
        prefix: &[],
        clauses: &[],
    },
    // spaces ahead of, between and behind the words of a line
    Accepted {
        text: "  p  cnf   2 1  \n e  2   1 0 \n   1    -2   0  \n",
        variables: 2,
        declared: 1,
        prefix: &[(Existential, 2), (Existential, 1)],
        clauses: &[&[2, 1]],
    },
    // blank lines between lines, within a clause and at the end
    Accepted {
        text: "p cnf 2 2\n\n \ne 1 2 0\n\n1\n\n  \n2 0\n \n-1 0\n\n \n",
        variables: 2,
        declared: 2,
        prefix: &[(Existential, 1), (Existential, 2)],
        clauses: &[&[0, 2], &[1]],
    },
    // clauses divide as their zeros say, on whatever lines
    Accepted {
        text: "p cnf 2 4\na 1 2 0\n1 0 2\n0 0 -1\n-2\n0\n",
        variables: 2,
        declared: 4,
        prefix: &[(Universal, 1), (Universal, 2)],
        clauses: &[&[0], &[2], &[], &[1, 3]],
    },
    // a repeated literal is stored where it first stands
    Accepted {
        text: "p cnf 3 1\ne 1 2 3 0\n3 1 3 3 -2 1 0\n",
        variables: 3,
        declared: 1,
        prefix: &[(Existential, 1), (Existential, 2), (Existential, 3)],
        clauses: &[&[4, 0, 3]],
    },
    // a repeated clause counts and is stored once, as it was first written: the second and the third are the first again
    Accepted {
        text: "p cnf 2 5\ne 1 2 0\n2 1 0\n1 2 0\n2 2 1 0\n2 0\n1 0\n",
        variables: 2,
        declared: 5,
        prefix: &[(Existential, 1), (Existential, 2)],
        clauses: &[&[2, 0], &[2], &[0]],
    },
    // clauses that differ in a sign alone are two
    Accepted {
        text: "p cnf 2 2\ne 1 2 0\n1 2 0\n1 -2 0\n",
        variables: 2,
        declared: 2,
        prefix: &[(Existential, 1), (Existential, 2)],
        clauses: &[&[0, 2], &[0, 3]],
    },
    // the empty clause is stored once as well
    Accepted {
        text: "p cnf 1 3\ne 1 0\n0 1 0 0\n",
        variables: 1,
        declared: 3,
        prefix: &[(Existential, 1)],
        clauses: &[&[], &[0]],
    },
    // both signs of a variable: counted, not stored
    Accepted {
        text: "p cnf 1 1\ne 1 0\n1 -1 0\n",
        variables: 1,
        declared: 1,
        prefix: &[(Existential, 1)],
        clauses: &[],
    },
    // the second clause has both signs of 2, the third both of 1 twice; the others stay in order
    Accepted {
        text: "p cnf 2 4\ne 1 2 0\n2 0\n-2 1 2 0\n-1 1 -1 1 0\n-1 0\n",
        variables: 2,
        declared: 4,
        prefix: &[(Existential, 1), (Existential, 2)],
        clauses: &[&[2], &[1]],
    },
    // the greatest V
    Accepted {
        text: "p cnf 256 0\n",
        variables: 256,
        declared: 0,
        prefix: &[],
        clauses: &[],
    },
    // the variable V itself, in the prefix and in both literals; alone in the prefix it has codes 0 and 1
    Accepted {
        text: "p cnf 256 2\na 256 0\n-256 0\n256 0\n",
        variables: 256,
        declared: 2,
        prefix: &[(Universal, 256)],
        clauses: &[&[1], &[0]],
    },
    // the only variable there is, at V 1
    Accepted {
        text: "p cnf 1 2\na 1 0\n1 0 -1 0\n",
        variables: 1,
        declared: 2,
        prefix: &[(Universal, 1)],
        clauses: &[&[0], &[1]],
    },
    // numbers of two and three digits
    Accepted {
        text: "p cnf 100 10\ne 10 100 0\n0 0 0 0 0 0 0 0 0 -100 10 0\n",
        variables: 100,
        declared: 10,
        prefix: &[(Existential, 10), (Existential, 100)],
        clauses: &[&[], &[3, 0]],
    },
];

// Prefixes are compared by their variables and quantifiers, in order.
#[test]
fn prefixes(rt: HostRuntime) -> Result<(), Fail> {
    let one = expect_formula(b"p cnf 3 0\na 1 2 0\n")?.prefix;
    // on two lines, with another V
    assert!(rt; one == expect_formula(b"p cnf 2 0\na 1 0\na 2 0\n")?.prefix);
    // in another order
    assert!(rt; one != expect_formula(b"p cnf 3 0\na 2 1 0\n")?.prefix);
    // with another quantifier
    assert!(rt; one != expect_formula(b"p cnf 3 0\na 1 0\ne 2 0\n")?.prefix);
    // with one variable more
    assert!(rt; one != expect_formula(b"p cnf 3 0\na 1 2 3 0\n")?.prefix);
    Ok(())
}

#[test]
fn formulas(rt: HostRuntime) -> Result<(), Fail> {
    expect_all_accepted(&rt, &ROWS)
}

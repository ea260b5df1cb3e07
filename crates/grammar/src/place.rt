// Where in a text a word stands.
use qbf::Quantifier;

// What may come next, behind the words so far.
#[derive(Clone, Copy)]
pub enum Place {
    // nothing yet: the p of the problem line
    Problem,
    // the word cnf
    Format,
    // the number of variables
    Variables,
    // the number of clauses
    Count,
    // behind a finished problem or prefix line: on a new line, a prefix line or the first clause
    Line,
    // behind the quantifier of a prefix line: its first variable
    FirstVariable(Quantifier),
    // behind a variable of a prefix line: another one, or its 0
    NextVariable(Quantifier),
    // behind a finished clause: another one
    Between,
    // in a clause: a literal, or its 0
    Within,
}

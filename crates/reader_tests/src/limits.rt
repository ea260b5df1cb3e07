// The limits that take a long text: 60,000 bytes, 2,048 clauses and 256 variables, at the last value that is allowed
// and the first that is refused.
use crate::outcomes::{expect_clause, expect_formula, expect_refused};
use formula::Formula;
use qbf::Quantifier;
use std::alloc::{AllocError, Global};
use std::process::Abort;
use std::test::Fail;

// The formula has these numbers in its problem line, this number of stored clauses, and the variables from 1 to V
// with one quantifier as its prefix.
fn expect_numbers(
    rt: &impl Abort,
    formula: &Formula,
    variables: u16,
    declared: u16,
    stored: usize,
    quantifier: Quantifier,
) {
    assert_eq!(rt; formula.variables, variables);
    assert_eq!(rt; formula.declared, declared);
    assert_eq!(rt; formula.clauses.len(), stored);
    let bindings = formula.prefix.bindings();
    assert_eq!(rt; bindings.len(), usize::from(variables));
    for (binding, variable) in bindings.iter().zip(1..variables + 1) {
        assert_eq!(rt;
            (binding.quantifier, binding.variable),
            (quantifier, variable)
        );
    }
}

// One byte more than a text may have: the head, and then line ends, but for the byte at 59,999.
fn padded(head: &[u8], byte: u8) -> [u8; 60001] {
    let mut text = [b'\n'; 60001];
    for (to, from) in text.iter_mut().zip(head) {
        *to = *from;
    }
    text[59999] = byte;
    text
}

// 60,000 bytes, and one more, of which the length alone is told.
#[test]
fn bytes(rt: HostRuntime) -> Result<(), Fail> {
    // a problem line and blank lines
    let text = padded(b"p cnf 0 0\n", b'\n');
    let formula = expect_formula(&text[0..60000])?;
    expect_numbers(&rt, &formula, 0, 0, 0, Quantifier::Universal);
    expect_refused(&rt, &text, 1, 60000);
    // the last of the 60,000 bytes is no line end
    let text = padded(b"p cnf 0 0\n", b' ');
    expect_refused(&rt, &text[0..60000], 2, 60000);
    expect_refused(&rt, &text, 1, 60000);
    // it is a word that may not stand there
    let text = padded(b"p cnf 0 0\n", b'x');
    expect_refused(&rt, &text[0..60000], 2, 59999);
    expect_refused(&rt, &text, 1, 60000);
    // the first byte is such a word
    let text = padded(b"x", b'\n');
    expect_refused(&rt, &text[0..60000], 2, 0);
    expect_refused(&rt, &text, 1, 60000);
    // the problem line is missing
    let text = padded(b"", b'\n');
    expect_refused(&rt, &text[0..60000], 2, 60000);
    expect_refused(&rt, &text, 1, 60000);
    Ok(())
}

// The longest clause: 16 bytes of head, 29,991 literals of two bytes each, all the same, and the 0 with its line end.
#[test]
fn literals(rt: HostRuntime) -> Result<(), Fail> {
    let mut text = String::from_str(rt.alloc(), "p cnf 1 1\na 1 0\n")?;
    for _ in 0..29991u16 {
        text.push_str("1 ")?;
    }
    // the clause is not finished
    expect_refused(&rt, text.as_bytes(), 2, 59998);
    text.push_str("0\n")?;
    assert_eq!(rt; text.len(), 60000);
    let formula = expect_formula(text.as_bytes())?;
    expect_numbers(&rt, &formula, 1, 1, 1, Quantifier::Universal);
    expect_clause(&rt, &formula.clauses, 0, &[0]);
    Ok(())
}

// A problem line with V 96 and C 2,048, 14 bytes, and a prefix line of the 96 variables: 4 bytes besides the variables,
// 9 of which take two bytes with their space and 87 three. Then the clauses (x y) for x from 1 to 64 and y from 65 to 96:
// 288 of 7 bytes and 1,760 of 8. In all 14 + 4 + 18 + 261 + 2,016 + 14,080 = 16,393 bytes.
fn many_clauses(heap: Global) -> Result<String, AllocError> {
    let mut text = String::from_str(heap, "p cnf 96 2048\ne")?;
    for variable in 1..97u8 {
        text.push_str(format!(in heap; " {variable}")?.as_str())?;
    }
    text.push_str(" 0\n")?;
    for x in 1..65u8 {
        for y in 65..97u8 {
            text.push_str(format!(in heap; "{x} {y} 0\n")?.as_str())?;
        }
    }
    Ok(text)
}

// 2,048 clauses, no two the same, are all stored in the order written; one more or one fewer is refused.
#[test]
fn clauses(rt: HostRuntime) -> Result<(), Fail> {
    let mut text = many_clauses(rt.alloc())?;
    assert!(rt; text.len() == 16393);
    let formula = expect_formula(text.as_bytes())?;
    expect_numbers(&rt, &formula, 96, 2048, 2048, Quantifier::Existential);
    for (place, stored) in (0..2048u16).zip(formula.clauses.iter()) {
        // the variables 1 + place / 32 and 65 + place % 32, at the same places of the prefix
        let codes = [2 * (place / 32), 2 * (64 + place % 32)];
        assert_eq!(rt; stored, codes.as_slice());
    }
    text.push_str("1 0\n")?;
    expect_refused(&rt, text.as_bytes(), 6, 16393);
    // the last of the 2,048 is "64 96 0" with its line end
    expect_refused(&rt, &text.as_bytes()[0..16385], 6, 16385);
    Ok(())
}

// All of 256 variables are bound; the last has the greatest codes.
#[test]
fn variables(rt: HostRuntime) -> Result<(), Fail> {
    let heap = rt.alloc();
    let mut text = String::from_str(heap, "p cnf 256 2\na")?;
    for variable in 1..257u16 {
        text.push_str(format!(in heap; " {variable}")?.as_str())?;
    }
    text.push_str(" 0\n-256 0\n256 1 0\n")?;
    let formula = expect_formula(text.as_bytes())?;
    expect_numbers(&rt, &formula, 256, 2, 2, Quantifier::Universal);
    expect_clause(&rt, &formula.clauses, 0, &[511]);
    expect_clause(&rt, &formula.clauses, 1, &[510, 0]);
    Ok(())
}

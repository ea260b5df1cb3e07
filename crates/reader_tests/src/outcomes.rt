// What a text is expected to give, held to what the reader answers.
use formula::{ClauseList, Formula, Prefix};
use qbf::Quantifier;
use std::process::Abort;
use std::test::Fail;

// A text that is refused, with the number of the rule that it breaks and the offset that is told.
#[derive(Clone, Copy)]
pub(crate) struct Refused(pub &'static str, pub u8, pub usize);

// A text that is read, with V and C of its problem line, its prefix from the outermost variable on, and the codes of its stored clauses.
#[derive(Clone, Copy)]
pub(crate) struct Accepted {
    pub text: &'static str,
    pub variables: u16,
    pub declared: u16,
    pub prefix: &'static [(Quantifier, u16)],
    pub clauses: &'static [&'static [u16]],
}

// The number of the rule by which a text is refused, and the offset that is told.
fn refusal(text: &[u8]) -> Option<(u8, usize)> {
    let fault = reader::read(text).err()?;
    Some((fault.rule.number(), fault.at))
}

// The text is refused by the rule of this number, at this offset.
pub(crate) fn expect_refused(rt: &impl Abort, text: &[u8], number: u8, at: usize) {
    assert_eq!(rt; refusal(text), Some((number, at)));
}

// The formula of a text that is to be accepted.
pub(crate) fn expect_formula(text: &[u8]) -> Result<Formula, Fail> {
    reader::read(text).map_err(|fault| Fail::new(format_args!("{fault}")))
}

pub(crate) fn expect_all_refused(rt: &impl Abort, rows: &[Refused]) {
    for row in rows {
        let Refused(text, number, at) = *row;
        assert_eq!(rt; refusal(text.as_bytes()), Some((number, at)), "{text:?}");
    }
}

pub(crate) fn expect_all_accepted(rt: &impl Abort, rows: &[Accepted]) -> Result<(), Fail> {
    for row in rows {
        expect_accepted(rt, row)?;
    }
    Ok(())
}

fn expect_accepted(rt: &impl Abort, row: &Accepted) -> Result<(), Fail> {
    let text = row.text;
    assert_eq!(rt; refusal(text.as_bytes()), None, "{text:?}");
    let formula = expect_formula(text.as_bytes())?;
    assert_eq!(rt; formula.variables, row.variables, "{text:?}");
    assert_eq!(rt; formula.declared, row.declared, "{text:?}");
    expect_prefix(rt, text, &formula.prefix, row.prefix);
    expect_clauses(rt, text, &formula.clauses, row.clauses);
    Ok(())
}

fn expect_prefix(rt: &impl Abort, text: &str, prefix: &Prefix, expected: &[(Quantifier, u16)]) {
    let bindings = prefix.bindings();
    assert_eq!(rt; bindings.len(), expected.len(), "{text:?}");
    for (binding, expected) in bindings.iter().zip(expected) {
        assert_eq!(rt;
            (binding.quantifier, binding.variable),
            *expected,
            "{text:?}"
        );
    }
}

fn expect_clauses(rt: &impl Abort, text: &str, clauses: &ClauseList, expected: &[&[u16]]) {
    assert_eq!(rt; clauses.len(), expected.len(), "{text:?}");
    for (stored, codes) in clauses.iter().zip(expected) {
        assert_eq!(rt; stored, *codes, "{text:?}");
    }
}

// The clause stored at this place, counted from 0, has these codes in this order.
pub(crate) fn expect_clause(rt: &impl Abort, clauses: &ClauseList, place: usize, codes: &[u16]) {
    assert!(rt; place < clauses.len());
    assert_eq!(rt; clauses.clause(place), codes);
}

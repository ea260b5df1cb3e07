// The first line of reducing that fits a set.
ghost use Rattle.std.specs.Prelude.{◌≡◌, ◌*◌, ◌/◌, ◌<◌, ◌≤◌, length, if◌then◌else◌};
ghost use Rattle.qbf.specs.Literals.{complement};
ghost use Rattle.qbf.specs.Reduce.{same, lowest, step};
ghost use Rattle.qbf.specs.declared.Quantifier.TheVariants.{Existential};
ghost use Rattle.table.specs.Sets.{clauses_of};
ghost use Rattle.reduction.specs.Numbered.{quantified, quantifiers_of, Fitting};
ghost use Rattle.reduction.specs.Outcomes.{step_of};
ghost use Rattle.reduction.specs.Tests.{unit_by, lone_by, bound_at};

use arrays::ByCode;
use formula::{Binding, Prefix};
use qbf::{Quantifier, opposite};
use survey::{count_literals, find_units, holds_empty};
use table::Set;

// What the line asks for: a verdict, or a literal to be set true; or no line fits.
#[derive(Clone, Copy)]
pub(crate) enum Step {
    Settled(bool),
    Forced(u16),
    Stuck,
}

// Who chooses the literal's variable.
fn quantifier_of(bindings: &[Binding], literal: u16) -> Quantifier
    requires { literal < 2 * length bindings.now }
    ensures { result ≡ bound_at bindings.now (literal / 2) }
{
    bindings[usize::from(literal) / 2].quantifier
}

// Whether the literal is a clause of its own and its variable has the quantifier.
fn is_unit(units: &ByCode<bool>, bindings: &[Binding], quantifier: Quantifier, literal: u16) -> bool
    requires few { length bindings.now ≤ 256 }
    requires bound { literal < 2 * length bindings.now }
    ensures { result ≡ unit_by units.now.at quantifier bindings.now literal }
{
    units.get(literal) && quantifier_of(bindings, literal) == quantifier
}

// Whether the literal occurs while its complement does not.
fn is_lone(counts: &ByCode<u16>, literal: u16) -> bool
    requires { literal < 512 }
    ensures { result ≡ lone_by counts.now.at literal }
{
    counts.get(literal) > 0 && counts.get(opposite(literal)) == 0
}

// The lowest literal that is a clause of its own and whose variable has the quantifier.
fn lowest_unit(units: &ByCode<bool>, bindings: &[Binding], quantifier: Quantifier) -> Option<u16>
    requires { length bindings.now ≤ 256 }
    ensures { result ≡ lowest (unit_by units.now.at quantifier bindings.now) (2 * length bindings.now) 0 }
{
    (0..2 * bindings.len() as u16).find(|literal| is_unit(units, bindings, quantifier, *literal))
}

// The lowest literal below `end` that occurs while its complement does not.
fn lowest_lone(counts: &ByCode<u16>, end: u16) -> Option<u16>
    requires { end ≤ 512 }
    ensures { result ≡ lowest (lone_by counts.now.at) end 0 }
{
    (0..end).find(|literal| is_lone(counts, *literal))
}

// What to set true of a variable that occurs by this literal alone: the literal for an existential one, its complement for a universal one.
fn favoured(literal: u16, quantifier: Quantifier) -> u16
    ensures { result ≡ (if same Existential quantifier then literal else complement literal) }
{
    match quantifier {
        Quantifier::Existential => literal,
        Quantifier::Universal => opposite(literal),
    }
}

// The first line that fits, of the five in their order.
fn fitting_line(set: Set, bindings: &[Binding]) -> Step
    requires few { length bindings.now ≤ 256 }
    requires fitting { Fitting (quantified bindings.now) (clauses_of set) }
    ensures { step_of result ≡ step (quantified bindings.now) (clauses_of set.entry) }
{
    if holds_empty(set) {
        return Step::Settled(false);
    }
    if set.number() == 0 {
        return Step::Settled(true);
    }
    let units = find_units(set);
    if lowest_unit(&units, bindings, Quantifier::Universal).is_some() {
        return Step::Settled(false);
    }
    if let Some(literal) = lowest_unit(&units, bindings, Quantifier::Existential) {
        return Step::Forced(literal);
    }
    let counts = count_literals(set);
    match lowest_lone(&counts, 2 * bindings.len() as u16) {
        Some(literal) => Step::Forced(favoured(literal, quantifier_of(bindings, literal))),
        None => Step::Stuck,
    }
}

// What the first line that fits the set asks for. What is counted for it is large, and is not to lie on the stack of every open
// split, so that it is not inlined.
#[inline(never)]
pub(crate) fn next_step(set: Set, prefix: &Prefix) -> Step
    requires { Fitting (quantifiers_of prefix.now) (clauses_of set) }
    ensures { step_of result ≡ step (quantifiers_of prefix.now) (clauses_of set.entry) }
{
    fitting_line(set, prefix.bindings())
}

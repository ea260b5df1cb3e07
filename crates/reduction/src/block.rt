// The outermost block that a variable of the set belongs to.
ghost use Rattle.std.specs.Prelude.{◌≡◌, ◌<◌, ◌≤◌, length};
ghost use Rattle.qbf.specs.Reduce.{lowest};
ghost use Rattle.qbf.specs.Walk.{candidates, outermost};
ghost use Rattle.table.specs.Sets.{clauses_of};
ghost use Rattle.reduction.specs.Numbered.{quantifiers_of, Fitting};
ghost use Rattle.reduction.specs.Outcomes.{candidates_of};
ghost use Rattle.reduction.specs.Tests.{candidate_by, occurring, BlockFrom};

use crate::candidates::Candidates;
use arrays::ByCode;
use formula::{Binding, Prefix};
use qbf::{Candidate, Quantifier};
use survey::count_literals;
use table::Set;

// What the counts tell of the variable at a place of the prefix, counted from 0.
fn candidate_at(counts: &ByCode<u16>, place: usize) -> Candidate
    requires { place < 256 }
    ensures { result ≡ candidate_by counts.now.at place }
{
    let variable = place as u16;
    Candidate {
        position: variable + 1,
        positive: counts.get(2 * variable),
        negative: counts.get(2 * variable + 1),
    }
}

// Whether a clause has one of the variable's literals.
fn occurs(candidate: Candidate) -> bool
    ensures { result ≡ occurring candidate }
{
    candidate.positive > 0 || candidate.negative > 0
}

// The first of the prefix's variables that occurs.
fn first_occurring(counts: &ByCode<u16>, variables: usize) -> Option<usize>
    requires { variables ≤ 256 }
    ensures { result ≡ lowest (λ x. occurring (candidate_by counts.now.at x)) variables 0 }
{
    (0..variables).find(|place| occurs(candidate_at(counts, *place)))
}

// The variables from a place on that are neighbours with its quantifier, as far as they occur.
fn block_from(counts: &ByCode<u16>, bindings: &[Binding], first: usize) -> Candidates
    requires few { length bindings.now ≤ 256 }
    requires within { first < length bindings.now }
    ensures { BlockFrom counts.now.at bindings.now first result }
{
    let quantifier = bindings[first].quantifier;
    let mut found = Candidates::none(quantifier);
    for (place, binding) in bindings.iter().enumerate().skip(first) {
        if binding.quantifier != quantifier {
            return found;
        }
        let candidate = candidate_at(counts, place);
        if occurs(candidate) {
            found.list.push(candidate);
        }
    }
    found
}

// The candidates of a set: the variables that occur, of the outermost block that has any.
pub fn find_candidates(set: Set, prefix: &Prefix) -> Candidates
    requires { Fitting (quantifiers_of prefix.now) (clauses_of set) }
    ensures list { candidates_of result ≡ candidates (quantifiers_of prefix.now) (clauses_of set.entry) }
    ensures quantifier { result.quantifier ≡ (outermost (quantifiers_of prefix.now) (clauses_of set.entry)).quantifier }
{
    let counts = count_literals(set);
    let bindings = prefix.bindings();
    match first_occurring(&counts, bindings.len()) {
        Some(first) => block_from(&counts, bindings, first),
        None => Candidates::none(Quantifier::Existential),
    }
}

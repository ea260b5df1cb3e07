// The chooser of the variable that occurs in most clauses, counted for each sign, and of the lowest position among equals.
ghost use Rattle.std.specs.Prelude.{◌≡◌, ◌+◌};
ghost use Rattle.choosers.specs.Preferred.{load, busiest_picks};
ghost use Rattle.choosers.specs.Listings.{busiest_listed};

use crate::Chooser;
use qbf::Candidate;
use std::cmp::Reverse;

#[derive(Clone, Copy)]
pub struct Busiest;

// The sum of a candidate's two clause counts.
fn load_of(candidate: &Candidate) -> u32
    ensures { result ≡ load candidate.now }
{
    u32::from(candidate.positive) + u32::from(candidate.negative)
}

impl Chooser for Busiest {
    ghost picks = { λ _. busiest_picks };

    ghost listed = { λ s. busiest_listed };

    fn choose(&self, candidates: &[Candidate]) -> u16 {
        let busiest = candidates
            .iter()
            .max_by_key(|one| (load_of(one), Reverse(one.position)));
        busiest.unwrap().position
    }
}

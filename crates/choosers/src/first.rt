// The chooser of the lowest position.
ghost use Rattle.choosers.specs.Preferred.{first_picks};
ghost use Rattle.choosers.specs.Listings.{first_listed};

use crate::Chooser;
use qbf::Candidate;

#[derive(Clone, Copy)]
pub struct First;

impl Chooser for First {
    ghost picks = { λ _. first_picks };

    ghost listed = { λ s. first_listed };

    fn choose(&self, candidates: &[Candidate]) -> u16 {
        let positions = candidates.iter().map(|candidate| candidate.position);
        positions.min().unwrap()
    }
}

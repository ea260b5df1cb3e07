// A chooser of the last candidate that it is shown.
ghost use Rattle.open_traits.specs.Lasts.{last_position};
ghost use Rattle.open_traits.specs.Shown.{last_listed};

use choosers::Chooser;
use qbf::Candidate;

#[derive(Clone, Copy)]
pub struct Last;

impl Chooser for Last {
    ghost picks = { λ _. last_position };

    ghost listed = { λ _. last_listed };

    fn choose(&self, candidates: &[Candidate]) -> u16 {
        candidates.last().unwrap().position
    }
}

// Choosers: which candidate a decision splits on. The trait says what every chooser promises, so that a decision is proved
// once for all of them; the two choosers here also say which candidate they pick.
#![tactic(auto)]

ghost use Rattle.std.specs.Prelude.{◌≡◌, ℕ, ◌<◌, List, length};
ghost use Rattle.qbf.specs.declared.Candidate.{Candidate};
ghost use Rattle.qbf.specs.Chooser.{Picks};

use qbf::Candidate;

pub mod busiest;
pub mod first;
pub mod laws;

// Picks one of the candidates that it is shown, in prefix order. It refuses none, and stays as it is.
pub trait Chooser {
    // the position that is picked from a list of candidates
    ghost picks: { Self → List Candidate → ℕ };

    // The position of the candidate to split on.
    fn choose(&self, candidates: &[Candidate]) -> u16
        requires { 0 < length candidates.now }
        ensures { result ≡ picks self.now candidates.now };

    // it is the position of a listed candidate
    ghost listed: { (s : Self) → Picks (picks s) };
}

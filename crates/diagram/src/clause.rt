// A single clause.
ghost use Rattle.std.specs.Prelude.{◌≡◌, ℕ, ◌<◌, ◌≤◌, false, [], ◌∷◌, slice_index_or};
ghost use Rattle.std.specs.List.{AllByRecursion};
ghost use Rattle.qbf.specs.Lists.{mem};
ghost use Rattle.sets.specs.Ordered.{clause_of};
ghost use Rattle.table.specs.Tables.{Makes};

use arrays::ByCode;
use table::{Full, Table};

// For each code, whether it is in a clause, and where the clause's codes lie: from `low` on, below `end`.
#[derive(Clone, Copy)]
struct Marks {
    held: ByCode<bool>,
    low: u16,
    end: u16,
}

// Marks the codes of a clause, literal by literal in the order given.
fn mark(codes: &[u16]) -> Marks
    requires { AllByRecursion (λ x. x < 512) codes.now }
    ensures marked { (k : ℕ) → k < 512 → slice_index_or result.held.at k false ≡ mem k codes.now }
    ensures within { AllByRecursion (λ x. (result.low ≤ x) × (x < result.end)) codes.now }
    ensures coded { result.end ≤ 512 }
{
    let mut held = ByCode::new(false);
    let mut low: u16 = 512;
    let mut end: u16 = 0;
    for code in codes {
        held.set(*code, true);
        low = low.min(*code);
        end = end.max(*code + 1);
    }
    Marks { held, low, end }
}

// The set of the one clause with these codes. It is built from the highest code down to the lowest, so that each node made
// is one of the set's.
pub fn single(table: &mut Table, codes: &[u16]) -> Result<u16, Full>
    requires { AllByRecursion (λ x. x < 512) codes.now }
    ensures { Makes table.old (clause_of codes.now ∷ []) table.new result }
{
    let marks = mark(codes);
    let mut clause = 1;
    for code in (marks.low..marks.end).rev() {
        if marks.held.get(code) {
            clause = table.make(code, clause, 0)?;
        }
    }
    Ok(clause)
}

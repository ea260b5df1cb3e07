// The words of clauses.
ghost use Rattle.std.specs.Prelude.{◌≡◌, ◌<◌, false, not, ◌&&◌, [], length, nat_lt};
ghost use Rattle.std.specs.List.{AllByRecursion};
ghost use Rattle.words.specs.Numbers.{read_literal};
ghost use Rattle.clause.specs.Codes.{codes_of};
ghost use Rattle.formula.specs.Views.{clauses_of, begun_of};
ghost use Rattle.grammar.specs.Grammar.{code_at};
ghost use Rattle.grammar.specs.Steps.{on_clause_word, joined};
ghost use Rattle.grammar.specs.Stored.{repeated, store};
ghost use Rattle.reader.specs.Sound.{Fine, Clean, kept};
ghost use Rattle.reader.specs.Views.{draft_of};

use clause::Clause;
use formula::{ClauseList, Formula};
use grammar::{Place, Rule};
use words::literal;

// The code of a literal of the variable at a place of the prefix.
fn code_at(negative: bool, place: usize) -> u16
    requires { place < 256 }
    ensures { result ≡ code_at negative place }
{
    // No place is above 255, so the cast is exact; `try_from` would answer an error that cannot come.
    2 * (place as u16) + u16::from(negative)
}

// Whether a stored clause has the same literals.
fn is_stored(clauses: &ClauseList, clause: &Clause) -> bool
    requires { AllByRecursion Clean (clauses_of clauses.now) }
    ensures { result ≡ repeated (codes_of clause.now) (clauses_of clauses.now) }
{
    clauses.iter().any(|stored| clause.same_literals(stored))
}

// The clause that is begun is finished. It is stored, unless it has both signs of a variable or is stored already.
fn finish_clause(clauses: &mut ClauseList)
    requires clean { AllByRecursion Clean (clauses_of clauses.old) }
    requires small { AllByRecursion (λ k. k < 512) (begun_of clauses.old) }
    requires few { length (clauses_of clauses.old) < 2048 }
    ensures stored { clauses_of clauses.new ≡ store (clauses_of clauses.old) (begun_of clauses.old) }
    ensures begun { begun_of clauses.new ≡ [] }
{
    let clause = Clause::of(clauses.begun());
    if clause.has_both_signs() || is_stored(clauses, &clause) {
        clauses.drop_begun();
    } else {
        clauses.push(clause.codes());
    }
}

// A word of a clause, its first or a later one: a literal, or the 0 that ends the clause.
pub fn on_clause_word(first: bool, bytes: &[u8], draft: &mut Formula) -> Result<Place, Rule>
    requires fine { Fine (draft_of draft.old) }
    requires room { kept (draft_of draft.old) < 30000 }
    requires counted { first ≡ false → draft.old.finished < draft.old.declared }
    ensures { on_clause_word (first && not (nat_lt draft.old.finished draft.old.declared)) (draft_of draft.old) (read_literal draft.old.variables bytes.now) ≡ joined result (draft_of draft.new) }
{
    let full = first && draft.finished >= draft.declared;
    match literal(bytes, draft.variables)? {
        Some(literal) => {
            let place = draft
                .prefix
                .position(literal.variable)
                .ok_or(Rule::Unbound)?;
            if full {
                return Err(Rule::ClauseCount);
            }
            draft.clauses.push_literal(code_at(literal.negative, place));
            Ok(Place::Within)
        }
        None if full => Err(Rule::ClauseCount),
        None => {
            finish_clause(&mut draft.clauses);
            draft.finished += 1;
            Ok(Place::Between)
        }
    }
}

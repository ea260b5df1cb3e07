// The memoised decision of a set of the table: the bare walk, with a memo of verdicts and an allowance of splits.
// It is proved once for every memo and every chooser. Its contract is a relation that pins each recall, note, split and set made;
// with a memo whose pairs are right the verdict is the value by full expansion, at no more splits than the bare walk's.
#![tactic(auto)]

ghost use Rattle.std.specs.Prelude.{◌≤◌};
ghost use Rattle.qbf.specs.Decision.{Decides};
ghost use Rattle.table.specs.Tables.{clauses};
ghost use Rattle.decision.specs.Endings.{ending_of, splits_of};
ghost use Rattle.decision.specs.Judging.{StaysRight, Unaided};
ghost use Rattle.reduction.specs.Numbered.{quantifiers_of, sets_of, Ready, Kept};

use crate::progress::Progress;
use crate::walk::Walk;
use choosers::Chooser;
use formula::Prefix;
use memos::Memo;
use table::Table;

mod choice;
mod noting;
mod progress;
mod unfinished;
mod walk;

pub use unfinished::{Halt, Unfinished};

// The verdict on a set of the table and the splits that it took, within an allowance of splits.
pub fn decide<M: Memo, C: Chooser>(
    table: &mut Table,
    memo: &mut M,
    chooser: &C,
    prefix: &Prefix,
    number: u16,
    allowance: u32,
) -> Result<(bool, u32), Unfinished>
    requires { Ready (quantifiers_of prefix.now) table.old number }
    ensures decides { Decides M.held M.notes (quantifiers_of prefix.now) (C.picks chooser.now) allowance 0 0 (sets_of table.old) memo.old (clauses table.old number) (ending_of result) (splits_of result) (sets_of table.new) memo.new }
    ensures keeps { Kept table.old table.new }
    ensures right { StaysRight M.held (quantifiers_of prefix.now) (C.picks chooser.now) allowance (sets_of table.old) memo.old (clauses table.old number) (ending_of result) (splits_of result) (sets_of table.new) memo.new }
    ensures unaided { Unaided M.held (quantifiers_of prefix.now) (C.picks chooser.now) (clauses table.old number) (ending_of result) (splits_of result) }
{
    let progress = Progress {
        allowance,
        splits: 0,
        depth: 0,
    };
    let mut walk = Walk {
        table,
        memo,
        chooser,
        prefix,
        progress,
    };
    let answer = walk.decide(number);
    let splits = walk.progress.splits;
    match answer {
        Ok(verdict) => Ok((verdict, splits)),
        Err(halt) => Err(Unfinished { halt, splits }),
    }
}

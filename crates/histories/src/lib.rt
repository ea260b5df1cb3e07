// Histories of dealings with a session: what each call answers and leaves in every case, which histories lead to a session, and
// that the promises of `ledger` are kept at every place of every history, for every memo and every chooser.
//
// Nothing here runs: the functions' contracts are theorems about the definitions, which the session's calls are proved against.
#![tactic(auto)]

ghost use Rattle.histories.specs.Laws.{HistoriesStand, PromisesKept, DealingsHonest};

use memos::Memo;

// A session that a history led to stands as the ledger of that history says.
pub fn histories_stand<M: Memo>()
    ensures { HistoriesStand M.held M.notes }
{}

// The promises are kept at every place of every history, and by one dealing more.
pub fn promises_stand<M: Memo>()
    ensures kept { PromisesKept M.held M.notes }
    ensures one_more { DealingsHonest M.held M.notes }
{}

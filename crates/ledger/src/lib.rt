// What a session owes to whoever calls it, as definitions over the history of dealings with it: the ledger says which formula is
// loaded and which sets count when the table is full, and the promises say what each answer means by it.
//
// The functions' contracts are theorems: that the ledger follows from the calls, and that a decision and the sets of a load,
// over a table of weighed nodes and with a right memo, keep the promises.
#![tactic(auto)]

ghost use Rattle.ledger.specs.Keeping.{MakingWeighed, MakingCrowded, LoadKeeps, DecisionKeeps};
ghost use Rattle.ledger.specs.Laws.{PrefixTold, CallsEnter, FormulaStands};

use memos::Memo;

// The ledger follows from the calls and, of their answers, only from a load's 'table full'; its formula stands under its prefix.
pub fn ledger_stands()
    ensures prefix { PrefixTold }
    ensures calls { CallsEnter }
    ensures formula { FormulaStands }
{}

// A table that takes the sets has only nodes of weighed ones; one that cannot is full of them.
pub fn making_stands()
    ensures weighed { MakingWeighed }
    ensures crowded { MakingCrowded }
{}

// A load keeps what is promised of its answer.
pub fn load_keeps_stands()
    ensures { LoadKeeps }
{}

// A decision with any memo keeps what is promised of its answer.
pub fn decision_keeps_stands<M: Memo>()
    ensures { DecisionKeeps M.held M.notes }
{}

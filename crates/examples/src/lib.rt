// Small formulas and histories worked through: what the definitions of the value, of reducing, of the bare walk, of a decision
// and of the ledger come to on them. Each group is one joint statement, proved by computing.
#![tactic(auto)]

ghost use Rattle.examples.specs.Examples.{Examples};
ghost use Rattle.examples.specs.Histories.{Histories};
ghost use Rattle.memos.specs.Rows.{verdict_among};
ghost use Rattle.theory.specs.Models.{note_nothing, note_keeping};
ghost use Rattle.theory.specs.Running.{RunsDecide, NodesListed};

// Eight formulas: verdict, splits, and what a memo saves. What is computed of them is what is defined: a computed decision is
// a decision, and the computed nodes of a set are its nodes.
pub fn examples_stand()
    ensures worked { Examples }
    ensures blank { RunsDecide verdict_among note_nothing }
    ensures keeping { RunsDecide verdict_among note_keeping }
    ensures nodes { NodesListed }
{}

// A text that is read, and the ledger after a few dealings.
pub fn histories_stand()
    ensures { Histories }
{}

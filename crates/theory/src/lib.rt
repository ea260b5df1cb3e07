// The theory of quantified formulas: the contract of each function here is a theorem about the definitions of crate `qbf`.
// Reducing keeps the value by full expansion and ends; so does the bare walk, whatever a chooser picks; a decision whose memo
// is right gives that value, within the splits and the sets of the bare walk.
#![tactic(auto)]

ghost use Rattle.memos.specs.Rows.{verdict_among};
ghost use Rattle.theory.specs.Blocks.{BlocksRun, CandidatesScanned};
ghost use Rattle.theory.specs.Deciding.{DecisionRight, DecisionBlank};
ghost use Rattle.theory.specs.Lines.{LinesFit, LinesTold, OccursCounted};
ghost use Rattle.theory.specs.Making.{DecisionMakes};
ghost use Rattle.theory.specs.Models.{note_nothing, note_keeping, note_slotted, BlankNoted, KeepingNoted, SlottedNoted};
ghost use Rattle.theory.specs.Reducing.{LinesKeep, LinesFall, ReducingEnds, ReducingKeeps, ReducingCleans, ReducingCanonical};
ghost use Rattle.theory.specs.Repeating.{DecisionSettles, DecisionRepeats};
ghost use Rattle.theory.specs.Running.{NodesListed, CrowdsCounted, RunsDecide};
ghost use Rattle.theory.specs.Setting.{SettingSame, SettingCanonical};
ghost use Rattle.theory.specs.Walking.{SplitFirst, SomeCandidate, WalkEnds, WalkRight};

use memos::Memo;

// Setting a literal true, by the four sets that it makes, is setting it clause by clause, and keeps the one form of a set.
pub fn setting_stands()
    ensures same { SettingSame }
    ensures canonical { SettingCanonical }
{}

// The step of reducing is the first line that fits.
pub fn lines_stand()
    ensures fit { LinesFit }
    ensures told { LinesTold }
    ensures counted { OccursCounted }
{}

// Blocks are longest runs of neighbours, and one look along the prefix finds the candidates.
pub fn blocks_stand()
    ensures run { BlocksRun }
    ensures scanned { CandidatesScanned }
{}

// Reducing keeps the value, ends, and leaves a set that no line fits.
pub fn reducing_stands()
    ensures lines { LinesKeep }
    ensures fall { LinesFall }
    ensures end { ReducingEnds }
    ensures keep { ReducingKeeps }
    ensures clean { ReducingCleans }
    ensures canonical { ReducingCanonical }
{}

// Any variable of the outermost block may be split first; the bare walk ends, and its verdict is the value.
pub fn walk_stands()
    ensures first { SplitFirst }
    ensures candidate { SomeCandidate }
    ensures ends { WalkEnds }
    ensures right { WalkRight }
{}

// What a decision comes to, with any memo whose pairs are right, and what it comes to when it is repeated.
pub fn decision_stands<M: Memo>()
    ensures right { DecisionRight M.held M.notes }
    ensures blank { DecisionBlank M.held M.notes }
    ensures makes { DecisionMakes M.held M.notes }
    ensures settles { DecisionSettles M.held M.notes }
    ensures repeats { DecisionRepeats M.held M.notes }
{}

// The nodes of sets can be listed and counted.
pub fn nodes_stand()
    ensures listed { NodesListed }
    ensures counted { CrowdsCounted }
{}

// Decisions that are computed, with memos as plain lists, are decisions, and these lists note as the delivered memos do.
pub fn runs_stand()
    ensures blank { RunsDecide verdict_among note_nothing }
    ensures keeping { RunsDecide verdict_among note_keeping }
    ensures slotted { RunsDecide verdict_among note_slotted }
    ensures blank_notes { BlankNoted }
    ensures keeping_notes { KeepingNoted }
    ensures slotted_notes { SlottedNoted }
{}

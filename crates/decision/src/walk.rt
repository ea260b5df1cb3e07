// The walk of a decision.
ghost use Rattle.std.specs.Prelude.{◌<◌, length};
ghost use Rattle.decision.specs.Walks.{ReadyAt, candidates_at, Stays, ChosenAt, DecidesAt, GoesOnAt, SidesAt, SideAt};

use crate::choice::Choice;
use crate::noting::note_verdict;
use crate::progress::Progress;
use crate::unfinished::Halt;
use choosers::Chooser;
use formula::Prefix;
use memos::Memo;
use reduction::{Reduced, find_candidates, reduce, set_true};
use table::Table;

// What a decision works on, and how far it has come.
#[derive(Drop)]
pub struct Walk<'a, M, C> {
    pub table: &'a mut Table,
    pub memo: &'a mut M,
    pub chooser: &'a C,
    pub prefix: &'a Prefix,
    pub progress: Progress,
}

impl<M: Memo, C: Chooser> Walk<'_, M, C> {
    // The decision of a set: reduced, recalled, or split.
    #[cycle(side_sides_split_walk)]
    pub fn decide(&mut self, number: u16) -> Result<bool, Halt>
        requires { ReadyAt self.old number }
        ensures decides { DecidesAt M.held M.notes C.picks self.old number result self.new }
        ensures stays { Stays self.old self.new }
    {
        match reduce(self.table, self.prefix, number)? {
            Reduced::Decided(verdict) => Ok(verdict),
            Reduced::Left(left) => match self.memo.recall(left) {
                Some(verdict) => Ok(verdict),
                None => self.split(left),
            },
        }
    }

    // The decision of a reduced set that the memo does not know, if another split may be made. Its verdict is noted.
    #[cycle(side_sides_split_walk)]
    fn split(&mut self, number: u16) -> Result<bool, Halt>
        requires ready { ReadyAt self.old number }
        requires shown { 0 < length (candidates_at self.old number) }
        ensures goes_on { GoesOnAt M.held M.notes C.picks self.old number result self.new }
        ensures stays { Stays self.old self.new }
    {
        self.progress.begin_split()?;
        let choice = self.choose(number);
        let answer = self.sides(number, choice);
        self.progress.end_split();
        note_verdict(self.memo, number, answer);
        answer
    }

    // The variable of a reduced set that the chooser picks.
    fn choose(&self, number: u16) -> Choice
        requires ready { ReadyAt self.now number }
        requires shown { 0 < length (candidates_at self.now number) }
        ensures { ChosenAt C.picks self.now number result }
    {
        let candidates = find_candidates(self.table.set(number), self.prefix);
        let position = self.chooser.choose(candidates.list.as_slice());
        Choice {
            variable: position - 1,
            quantifier: candidates.quantifier,
        }
    }

    // The two sides of a split: the variable is false first, and true only if that does not end the split.
    #[cycle(side_sides_split_walk)]
    fn sides(&mut self, number: u16, choice: Choice) -> Result<bool, Halt>
        requires { ReadyAt self.old number }
        ensures sides { SidesAt M.held M.notes C.picks self.old number choice result self.new }
        ensures stays { Stays self.old self.new }
    {
        let first = self.side(number, choice.literal(false))?;
        if choice.ends_with(first) {
            return Ok(first);
        }
        self.side(number, choice.literal(true))
    }

    // One side of a split: a literal of the set is set true.
    #[cycle(side_sides_split_walk)]
    fn side(&mut self, number: u16, literal: u16) -> Result<bool, Halt>
        requires { ReadyAt self.old number }
        ensures side { SideAt M.held M.notes C.picks self.old number literal result self.new }
        ensures stays { Stays self.old self.new }
    {
        let rest = set_true(self.table, number, literal)?;
        self.decide(rest)
    }
}

// What is done with the progress.
ghost use Rattle.std.specs.Prelude.{◌≡◌, ◌-◌, ◌<◌, ◌≤◌};
ghost use Rattle.decision.specs.Starts.{Starts};

use crate::progress::Progress;
use crate::unfinished::Halt;

impl Progress {
    // Starts a split, if another one may be made: it is counted, and it is open.
    pub fn begin_split(&mut self) -> Result<(), Halt>
        ensures { Starts self.old result self.new }
    {
        if self.splits == self.allowance {
            return Err(Halt::Spent);
        }
        if self.depth == 256 {
            return Err(Halt::TooDeep);
        }
        self.splits += 1;
        self.depth += 1;
        Ok(())
    }

    // The split that was started last is no longer open.
    pub fn end_split(&mut self)
        requires { 0 < self.old.depth }
        ensures allowance { self.new.allowance ≡ self.old.allowance }
        ensures splits { self.new.splits ≡ self.old.splits }
        ensures depth { self.new.depth ≡ self.old.depth - 1 }
    {
        self.depth -= 1;
    }
}

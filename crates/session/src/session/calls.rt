// The calls of a session.
ghost use Rattle.std.specs.Prelude.{◌≡◌, [], length};
ghost use Rattle.ledger.specs.Ledger.{forget};
ghost use Rattle.histories.specs.Standing.{Fresh};
ghost use Rattle.session.specs.Calls.{LedTo, Dealt, LoadDealt, DecideDealt, WriteDealt, BufferLeft};
ghost use Rattle.session.specs.Views.{standing};

use crate::answer::Loaded;
use crate::fault::Fault;
use crate::inner::Core;
use crate::session::Session;
use choosers::Chooser;
use formula::Formula;
use memos::Memo;
use reader::read_into;

// The most splits that a decision may be allowed.
pub const MOST_ALLOWED: u32 = 1_000_000;

impl<M: Memo, C: Chooser> Session<M, C> {
    // A session with nothing loaded. Whatever the memo held is forgotten.
    pub fn new(mut memo: M, chooser: C) -> Session<M, C>
        ensures fresh { Fresh M.held (standing result) }
        ensures chooser { result.chooser ≡ chooser }
        ensures led { LedTo M.held M.notes C.picks [] result }
    {
        memo.clear();
        Session {
            memo,
            chooser,
            core: Core::new(),
        }
    }

    // Reads the whole text, and then stores its clauses. A text that is refused leaves the session as it was.
    pub fn load(&mut self, text: &[u8]) -> Result<Loaded, Fault>
        ensures { LoadDealt M.held M.notes C.picks self.old text.now result self.new }
    {
        let mut formula = Formula::new();
        read_into(text, &mut formula)?;
        self.begin(&formula.prefix);
        self.core.store(&formula)?;
        Ok(Loaded::from(&formula))
    }

    // The verdict on the loaded formula and the splits that it took, within an allowance of splits.
    pub fn decide(&mut self, allowance: u32) -> Result<(bool, u32), Fault>
        ensures { DecideDealt M.held M.notes C.picks self.old allowance result self.new }
    {
        if allowance > MOST_ALLOWED {
            return Err(Fault::AllowanceTooLarge);
        }
        let mut core = self.core;
        let answer = core.decide(&mut self.memo, &self.chooser, allowance);
        self.core = core;
        answer
    }

    // Writes the loaded formula to the front of the buffer, and tells its length.
    pub fn write(&self, buffer: &mut [u8]) -> Result<usize, Fault>
        ensures dealt { WriteDealt M.held M.notes C.picks self.now (length buffer.old) result }
        ensures buffer { BufferLeft (standing self.now) buffer.old buffer.new result }
    {
        self.core.write(buffer)
    }

    // Forgets everything: the session is as a new one.
    pub fn forget(&mut self)
        ensures { Dealt M.held M.notes C.picks self.old forget self.new }
    {
        self.restart(None);
    }
}

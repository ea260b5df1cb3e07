// How a load begins.
ghost use Rattle.std.specs.Prelude.{◌≡◌, []};
ghost use Rattle.qbf.specs.Memo.{Empty};
ghost use Rattle.formula.specs.Views.{bindings_of};
ghost use Rattle.histories.specs.Standing.{Begins};
ghost use Rattle.reduction.specs.Numbered.{sets_of};
ghost use Rattle.session.specs.Places.{begun_under};
ghost use Rattle.session.specs.Views.{standing};

use crate::session::Session;
use choosers::Chooser;
use formula::Prefix;
use memos::Memo;

impl<M: Memo, C: Chooser> Session<M, C> {
    // Takes a prefix. What is known under another one is forgotten: numbers and verdicts go by the prefix.
    pub(crate) fn begin(&mut self, prefix: &Prefix)
        ensures begins { Begins M.held (bindings_of prefix.now) (standing self.old) (standing self.new) }
        ensures chooser { self.new.chooser ≡ self.old.chooser }
    {
        if !self.core.has_prefix(prefix) {
            self.restart(Some(*prefix));
        }
    }

    // Begins anew under a prefix, or none. What the memo holds is of the old numbers, so it is forgotten.
    pub(crate) fn restart(&mut self, prefix: Option<Prefix>)
        ensures memo { Empty (M.held self.new.memo) }
        ensures scope { self.new.core.scope ≡ begun_under prefix }
        ensures table { sets_of self.new.core.table ≡ [] }
        ensures chooser { self.new.chooser ≡ self.old.chooser }
    {
        self.memo.clear();
        self.core.clear(prefix);
    }
}

// A run with the memo and the chooser that a script names.
ghost use Rattle.std.specs.Prelude.{IfOk};
ghost use Rattle.replaying.specs.Makes.{RanWith, RanAs};

use choosers::Chooser;
use choosers::busiest::Busiest;
use choosers::first::First;
use memos::blank::Blank;
use memos::keeping::Keeping;
use memos::slotted::Slotted;
use runs::{Transcript, run};
use script::{Call, ChooserKind, Make, MemoKind};
use std::alloc::{AllocError, Global};

// Carries out the calls on a new session that is made so. A script names memo and chooser as data, and a session is generic over
// both, so that each is matched once.
pub fn replay(heap: Global, make: Make, calls: &[Call]) -> Result<Transcript, AllocError>
    ensures { IfOk result (λ t. RanAs make calls.now t) }
{
    match make.chooser {
        ChooserKind::First => with_memo(heap, make.memo, First, calls),
        ChooserKind::Busiest => with_memo(heap, make.memo, Busiest, calls),
    }
}

fn with_memo<C: Chooser + Drop>(
    heap: Global,
    memo: MemoKind,
    chooser: C,
    calls: &[Call],
) -> Result<Transcript, AllocError>
    ensures { IfOk result (λ t. RanWith memo (C.picks chooser) calls.now t) }
{
    match memo {
        MemoKind::Blank => run(heap, Blank::new(), chooser, calls),
        MemoKind::Slotted => run(heap, Slotted::new(), chooser, calls),
        MemoKind::Keeping => run(heap, Keeping::new(), chooser, calls),
    }
}

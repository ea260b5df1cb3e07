// The memo that keeps the first 1,024 numbers that it is told, each once and with its last verdict.
ghost use Rattle.arrays.specs.Lists.{items_of};
ghost use Rattle.memos.specs.Rows.{Apart};

use crate::pair::Pair;
use arrays::FixedList;

mod memo;

#[derive(Clone, Copy)]
pub struct Keeping {
    pairs: FixedList<Pair, 1024>,
    ghost apart: { Apart (items_of pairs) },
}

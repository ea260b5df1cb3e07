// Lists are equal if their items are, whatever the places behind them hold.
ghost use Rattle.std.specs.Cmp.{on_per, on_equiv};
ghost use Rattle.std.specs.Cmp.Lexicographic.{pointwise, lists_per, lists_equiv};
ghost use Rattle.arrays.specs.Lists.{items_of};

use crate::list::FixedList;

impl<T: PartialEq, const N: usize> PartialEq for FixedList<T, N> {
    ghost eq = { λ one other. pointwise T.eq (items_of one) (items_of other) };

    ghost laws = { on_per items_of (lists_per T.laws) };

    fn eq(&self, other: &FixedList<T, N>) -> bool {
        self.as_slice() == other.as_slice()
    }
}

impl<T: Eq, const N: usize> Eq for FixedList<T, N> {
    ghost laws = { on_equiv items_of (lists_equiv T.Eq.laws) };
}

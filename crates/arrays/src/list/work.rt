// What is done with a list.
ghost use Rattle.std.specs.Prelude.{◌≡◌, ◌+◌, ◌-◌, ◌<◌, ◌≤◌, ◌==◌, [], ◌∷◌, ◌++◌, length, take, slice_set};
ghost use Rattle.arrays.specs.Lists.{items_of};

use crate::list::FixedList;

impl<T, const N: usize> FixedList<T, N> {
    pub fn len(&self) -> usize
        ensures value { result ≡ length (items_of self.now) }
        ensures fits { result ≤ N }
    {
        self.len
    }

    pub fn is_full(&self) -> bool
        ensures { result ≡ (length (items_of self.now) == N) }
    {
        self.len == N
    }

    pub fn as_slice(&self) -> &[T]
        ensures { result.now ≡ items_of self.now }
    {
        &self.at[..self.len]
    }

    // Leaves the first `len` items.
    pub fn truncate(&mut self, len: usize)
        requires { len ≤ length (items_of self.old) }
        ensures { items_of self.new ≡ take len (items_of self.old) }
    {
        self.len = len;
    }

    // The last item goes.
    pub fn pop(&mut self)
        requires { 0 < length (items_of self.old) }
        ensures { items_of self.new ≡ take (length (items_of self.old) - 1) (items_of self.old) }
    {
        self.len -= 1;
    }

    pub fn clear(&mut self)
        ensures { items_of self.new ≡ [] }
    {
        self.len = 0;
    }
}

impl<T: Copy, const N: usize> FixedList<T, N> {
    // No item. Every place holds the blank one, which no list shows.
    pub fn new(blank: T) -> FixedList<T, N>
        ensures { items_of result ≡ [] }
    {
        FixedList {
            at: [blank; N],
            len: 0,
        }
    }

    pub fn push(&mut self, item: T)
        requires { length (items_of self.old) < N }
        ensures { items_of self.new ≡ items_of self.old ++ item ∷ [] }
    {
        self.at[self.len] = item;
        self.len += 1;
    }

    // Puts another item into a place that is in use.
    pub fn set(&mut self, place: usize, item: T)
        requires { place < length (items_of self.old) }
        ensures { items_of self.new ≡ slice_set (items_of self.old) place item }
    {
        self.at[place] = item;
    }

    pub fn extend_from_slice(&mut self, items: &[T])
        requires { length (items_of self.old) + length items.now ≤ N }
        ensures { items_of self.new ≡ items_of self.old ++ items.now }
    {
        let end = self.len + items.len();
        let places = &mut self.at[..];
        places[self.len..end].copy_from_slice(items);
        self.len = end;
    }
}

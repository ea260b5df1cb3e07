// A list of at most `N` items.
ghost use Rattle.std.specs.Prelude.{⊤, ◌≡◌, ◌≤◌, length};

use std::alloc::AllocError;

mod compare;
mod work;

// The places behind the first `len` hold what was there before, or the item that the list was made with.
pub struct FixedList<T, const N: usize> {
    at: [T; N],
    len: usize,
    ghost long: { length at ≡ N },
    ghost fits: { len ≤ N },
}

impl<T: Copy, const N: usize> Clone for FixedList<T, N> {
    ghost is_clone = { λ list copy. copy ≡ list };

    ghost is_infallible = { λ _. ⊤ };

    fn clone(&self) -> Result<FixedList<T, N>, AllocError> {
        Ok(*self)
    }
}

impl<T: Copy, const N: usize> Copy for FixedList<T, N> {}

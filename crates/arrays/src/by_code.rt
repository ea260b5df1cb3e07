// A value for each of the 512 literal codes.
ghost use Rattle.std.specs.Prelude.{⊤, ◌≡◌, ◌<◌, length, replicate, slice_index_or, slice_set};

use std::alloc::AllocError;

pub struct ByCode<T> {
    at: [T; 512],
    ghost long: { length at ≡ 512 },
}

impl<T: Copy> Clone for ByCode<T> {
    ghost is_clone = { λ table copy. copy ≡ table };

    ghost is_infallible = { λ _. ⊤ };

    fn clone(&self) -> Result<ByCode<T>, AllocError> {
        Ok(*self)
    }
}

impl<T: Copy> Copy for ByCode<T> {}

impl<T: Copy> ByCode<T> {
    // One value for every code.
    pub fn new(value: T) -> ByCode<T>
        ensures { result.at ≡ replicate 512 value }
    {
        ByCode { at: [value; 512] }
    }

    pub fn get(&self, code: u16) -> T
        requires { code < 512 }
        ensures { result ≡ slice_index_or self.now.at code result }
    {
        self.at[usize::from(code)]
    }

    pub fn set(&mut self, code: u16, value: T)
        requires { code < 512 }
        ensures { self.new.at ≡ slice_set self.old.at code value }
    {
        self.at[usize::from(code)] = value;
    }
}

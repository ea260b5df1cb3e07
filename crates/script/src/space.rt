// The space that is given to what is written.
ghost use Rattle.std.specs.Prelude.{◌≡◌, ◌<◌, ◌≤◌, MatchResult};

// A number of bytes, 65,536 at most.
#[derive(Clone, Copy, PartialEq, Eq, Debug)]
pub struct Space {
    bytes: usize,
    ghost most: { bytes ≤ 65536 },
}

// No space has so many bytes.
#[derive(Clone, Copy, PartialEq, Eq, Debug)]
pub struct TooManyBytes;

impl TryFrom<usize> for Space {
    type Error = TooManyBytes;

    ghost try_from_gives = { λ bytes r. MatchResult r (λ s. s.bytes ≡ bytes) (λ _. 65536 < bytes) };

    fn try_from(bytes: usize) -> Result<Space, TooManyBytes> {
        if bytes > Self::MOST {
            return Err(TooManyBytes);
        }
        Ok(Space { bytes })
    }
}

// Every number of 16 bits is small enough.
impl From<u16> for Space {
    ghost from_gives = { λ bytes r. r.bytes ≡ bytes };

    fn from(bytes: u16) -> Space {
        Space {
            bytes: usize::from(bytes),
        }
    }
}

impl Space {
    pub const MOST: usize = 65536;

    // The largest space.
    pub fn whole() -> Space
        ensures { result.bytes ≡ 65536 }
    {
        Space { bytes: Self::MOST }
    }

    // How many bytes the space has.
    pub fn bytes(&self) -> usize
        ensures value { result ≡ self.now.bytes }
        ensures bound { result ≤ 65536 }
    {
        self.bytes
    }
}

// A formula text for the programs: what comes from standard input, or from another source, into a lent buffer or onto the heap.
#![tactic(auto)]

ghost use Rattle.std.specs.Prelude.{◌≡◌, ◌≤◌, length, take, IfOk, IfSome, vec_len};

use std::alloc::Global;
use std::io;
use std::io::{ErrorKind, Read};

// One byte more than a text may have, so that a longer text is seen to be too long.
pub const MOST: usize = 60001;

// Reads standard input until it ends or the buffer is full, and tells how many bytes came. Nothing is allocated.
pub fn fill(rt: &HostRuntime, buffer: &mut [u8]) -> io::Result<usize>
    ensures { IfOk result (λ n. n ≤ length buffer.new) }
{
    fill_from(rt.stdin(), buffer)
}

// The same from any source: the bytes at the front of the buffer are what comes, and no more than it has room for.
pub fn fill_from<R: Read + Drop>(mut source: R, buffer: &mut [u8]) -> io::Result<usize>
    ensures bound { IfOk result (λ n. n ≤ length buffer.new) }
    ensures bytes { IfOk result (λ n. IfSome (R.remaining source) (λ xs. take n buffer.new ≡ take (length buffer.new) xs)) }
{
    let mut len = 0usize;
    for _ in 0..u64::MAX {
        if len >= buffer.len() {
            return Ok(len);
        }
        match source.read(&mut buffer[len..]) {
            Ok(0) => return Ok(len),
            Ok(n) => len += n,
            // a signal came in between
            Err(fault) if fault.kind() == ErrorKind::Interrupted => {}
            Err(fault) => return Err(fault),
        }
    }
    Err(io::Error::from(ErrorKind::Interrupted))
}

// What comes up to the source's end, and of a longer text no more than is needed to see that it is too long.
pub fn read_text<R: Read + Drop>(heap: Global, source: R) -> io::Result<Vec<u8>>
    ensures bound { IfOk result (λ text. vec_len text ≤ 60001) }
    ensures bytes { IfOk result (λ text. IfSome (R.remaining source) (λ xs. text.items ≡ take 60001 xs)) }
{
    let mut text = Vec::new(heap);
    source.take(MOST as u64).read_to_end(&mut text)?;
    // no more came, but that is not said of a source whose bytes are not known
    text.truncate(MOST);
    Ok(text)
}

#[cfg(test)]
mod tests {
    use super::{fill_from, read_text};
    use std::io;
    use std::test::Fail;

    #[test]
    fn a_buffer_is_filled_to_the_end_of_the_source(rt: HostRuntime) -> Result<(), Fail> {
        let source: &[u8] = b"p cnf 0 0\n";
        let mut buffer = [b'.'; 12];
        let len = fill_from(source, &mut buffer)?;
        assert_eq!(rt; len, 10);
        assert!(rt; buffer == *b"p cnf 0 0\n..");
        Ok(())
    }

    #[test]
    fn a_buffer_takes_what_it_has_room_for(rt: HostRuntime) -> Result<(), Fail> {
        let mut buffer = [b'.'; 3];
        let len = fill_from(io::repeat(b'c'), &mut buffer)?;
        assert_eq!(rt; len, 3);
        assert!(rt; buffer == *b"ccc");
        Ok(())
    }

    #[test]
    fn a_text_is_read_whole(rt: HostRuntime) -> Result<(), Fail> {
        let source: &[u8] = b"p cnf 0 0\n";
        let text = read_text(rt.alloc(), source)?;
        assert!(rt; text.as_slice() == source);
        Ok(())
    }

    #[test]
    fn of_a_longer_text_one_byte_more_is_read(rt: HostRuntime) -> Result<(), Fail> {
        let text = read_text(rt.alloc(), io::repeat(b'c'))?;
        assert_eq!(rt; text.len(), 60001);
        Ok(())
    }
}

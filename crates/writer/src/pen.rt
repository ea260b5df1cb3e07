// A pen puts text into a buffer, one part behind the other.
// What lies past the end of the buffer is counted and not written, so that a text can be measured with no buffer at all.
ghost use Rattle.std.specs.Prelude.{◌≡◌, [], ◌∷◌, decimal};
ghost use Rattle.writer.specs.Puts.{Puts};

#[derive(Drop)]
pub struct Pen<'a> {
    buffer: &'a mut [u8],
    // how many bytes were put
    at: usize,
}

impl<'a> Pen<'a> {
    // A pen at the front of the buffer.
    pub fn new(buffer: &'a mut [u8]) -> Pen<'a>
        ensures same_buffer { result.buffer.ghost_name ≡ buffer.entry.ghost_name }
        ensures untouched { result.buffer.now ≡ buffer.old }
        ensures at_front { result.at ≡ 0 }
    {
        Pen { buffer, at: 0 }
    }

    // How many bytes were put, also past the end of the buffer.
    pub fn len(&self) -> usize
        ensures { result ≡ self.now.at }
    {
        self.at
    }

    // No text is so long that the count stops at the largest number.
    fn put_byte(&mut self, byte: u8)
        ensures { Puts self.old (byte ∷ []) self.new }
    {
        let buffer = &mut *self.buffer;
        if self.at < buffer.len() {
            buffer[self.at] = byte;
        }
        self.at = self.at.saturating_add(1);
    }

    pub fn put(&mut self, text: &str)
        ensures { Puts self.old text.now self.new }
    {
        for byte in text.as_bytes() {
            self.put_byte(*byte);
        }
    }

    // In decimal. A `write!` is not known to be Ok, and a pen never fails.
    pub fn put_number(&mut self, number: u16)
        ensures { Puts self.old (decimal number) self.new }
    {
        let mut digits = itoa::Buffer::new();
        self.put(digits.format(number));
    }
}

// Bytes and numbers at the end of a buffer.
ghost use Rattle.std.specs.Prelude.{◌≡◌, ◌<◌, ◌≤◌, [], ◌∷◌, ◌++◌, length, OnOk, OnErr};
ghost use Rattle.script.specs.Buffers.{held, Adds, value_text};

use crate::buffer::{Buffer, Full};
use itoa::Integer;

impl<const N: usize> Buffer<N> {
    // No byte.
    pub(crate) fn new() -> Buffer<N>
        ensures { held result ≡ [] }
    {
        Buffer {
            bytes: [0; N],
            len: 0,
        }
    }

    // Lets the bytes go.
    pub(crate) fn clear(&mut self)
        ensures { held self.new ≡ [] }
    {
        self.len = 0;
    }

    // One more byte, where there is room.
    pub(crate) fn push(&mut self, byte: u8) -> Result<(), Full>
        ensures ok { OnOk result ((length (held self.old) < N) × (held self.new ≡ held self.old ++ byte ∷ [])) }
        ensures err { OnErr result ((N ≤ length (held self.old)) × (held self.new ≡ held self.old)) }
    {
        if self.len == N {
            return Err(Full);
        }
        self.bytes[self.len] = byte;
        self.len += 1;
        Ok(())
    }

    // The bytes, as far as there is room.
    pub(crate) fn extend(&mut self, bytes: &[u8])
        ensures { Adds self.old bytes.now self.new }
    {
        for byte in bytes {
            if self.push(*byte).is_err() {
                break;
            }
        }
    }

    // The number's decimal digits, after `-` if it is negative.
    pub(crate) fn extend_number<I: Integer>(&mut self, n: I)
        ensures adds { Adds self.old (I.text n) self.new }
        ensures short { length (I.text n) ≤ I.MAX_STR_LEN }
    {
        self.extend(itoa::Buffer::new().format(n).as_bytes());
    }

    // The number, or nothing.
    pub(crate) fn extend_value(&mut self, value: Option<i64>)
        ensures adds { Adds self.old (value_text value) self.new }
        ensures short { length (value_text value) ≤ 20 }
    {
        if let Some(z) = value {
            self.extend_number(z);
        }
    }

    // The bytes.
    pub fn as_slice(&self) -> &[u8]
        ensures { result.now ≡ held self.now }
    {
        &self.bytes[..self.len]
    }
}

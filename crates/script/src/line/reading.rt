// A line grows byte by byte, and gives its row at its end.
ghost use Rattle.std.specs.Prelude.{◌≡◌, ℕ, List};
ghost use Rattle.script.specs.Lines.{kept, nothing, keep, blank, keep_all, without_return, before_end, within_64, kept_row, gives};

use crate::buffer::Buffer;
use crate::fault::TooLong;
use crate::line::{End, Line};

impl Line {
    // A line with no byte.
    pub fn new() -> Line
        ensures { kept result ≡ nothing }
    {
        Line {
            bytes: Buffer::new(),
            more: false,
        }
    }

    // One more byte.
    pub fn push(&mut self, byte: u8)
        ensures { kept self.new ≡ keep (kept self.old) byte }
    {
        if self.bytes.push(byte).is_err() {
            self.more = true;
        }
    }

    // Lets the bytes go, for the next line.
    pub fn clear(&mut self)
        ensures { kept self.new ≡ nothing }
    {
        self.bytes.clear();
        self.more = false;
    }

    // Whether no byte came.
    pub fn is_empty(&self) -> bool
        ensures { result ≡ blank (kept self.now) }
    {
        self.bytes.as_slice().is_empty()
    }

    // The row of the line: its bytes before its end.
    pub fn row(&self, end: End) -> Result<&[u8], TooLong>
        ensures value { gives result (kept_row end (kept self.now)) }
        ensures law { (bs : List ℕ) → kept self.now ≡ keep_all bs → gives result (within_64 (before_end end bs)) }
    {
        self.bytes_before(end)
    }

    fn bytes_before(&self, end: End) -> Result<&[u8], TooLong>
        ensures { gives result (kept_row end (kept self.now)) }
    {
        let line = self.bytes.as_slice();
        let row = match end {
            End::LineFeed => without_return(line),
            End::Script => line,
        };
        if self.more || row.len() > 64 {
            return Err(TooLong);
        }
        Ok(row)
    }
}

// The bytes without a carriage return at their end.
fn without_return(line: &[u8]) -> &[u8]
    ensures { result.now ≡ without_return line.now }
{
    match line {
        [front @ .., b'\r'] => front,
        _ => line,
    }
}

#[cfg(test)]
mod tests {
    use super::*;
    use std::test::Fail;

    #[test]
    fn one_return_belongs_to_the_end(rt: HostRuntime) -> Result<(), Fail> {
        let mut line = Line::new();
        line.push(b'P');
        line.push(b'\r');
        line.push(b'\r');
        assert!(rt; line.row(End::LineFeed)? == b"P\r".as_slice());
        assert!(rt; line.row(End::Script)? == b"P\r\r".as_slice());
        line.clear();
        assert!(rt; line.row(End::LineFeed)? == b"".as_slice());
        Ok(())
    }

    #[test]
    fn rows_end_at_64_bytes(rt: HostRuntime) {
        let mut line = Line::new();
        for _ in 0..64 {
            line.push(b'a');
        }
        line.push(b'\r');
        assert!(rt; line.row(End::LineFeed).is_ok());
        assert!(rt; line.row(End::Script).is_err());
        line.push(b'\r');
        assert!(rt; line.row(End::LineFeed).is_err());
    }
}

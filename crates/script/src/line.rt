// The line that is being read, in bounded memory.
mod reading;

use crate::buffer::Buffer;

// The bytes of a line so far: the first 65 of them, and whether more came. 64 bytes and a carriage return fit.
#[derive(Clone, Copy)]
pub struct Line {
    bytes: Buffer<65>,
    more: bool,
}

// What ended a line: a line feed, or the end of the script.
#[derive(Clone, Copy)]
pub enum End {
    LineFeed,
    Script,
}

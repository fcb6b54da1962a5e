// Bytes in the order in which they came, in bounded memory.
ghost use Rattle.std.specs.Prelude.{◌≤◌};

mod writing;

// At most N bytes.
#[derive(Clone, Copy)]
pub struct Buffer<const N: usize> {
    bytes: [u8; N],
    len: usize,
    ghost fits: { len ≤ N },
}

// There is no room for a byte more.
#[derive(Clone, Copy, PartialEq, Eq, Debug)]
pub(crate) struct Full;

// A list of bounded length, which lies in the value itself.
ghost use Rattle.std.specs.Prelude.{◌≡◌, ◌<◌, ◌≤◌, [], ◌∷◌, ◌++◌, length, replicate, min, OnOk, OnErr, slice_set};

use std::ops::DerefSlice;

// At most N elements: the first `len` of an array. Behind them the array may hold anything.
#[derive(Drop)]
pub struct Bounded<T, const N: usize> {
    array: [T; N],
    len: usize,
    ghost array_has_its_length: { length array ≡ N },
    ghost fits: { len ≤ N },
}

// A list has no room for one element more.
#[derive(Clone, Copy, PartialEq, Eq, Debug)]
pub struct Full;

impl<T: Copy, const N: usize> Bounded<T, N> {
    ghost use Rattle.base.specs.Bounded.{listed, unused};

    // The list of `len` times x, or of N times where that is less.
    #[tactic(auto, using(crate::proofs::BoundedLaws::bounded_steps))]
    pub fn filled(x: T, len: usize) -> Bounded<T, N>
        ensures { listed result ≡ replicate (min len N) x }
    {
        Bounded {
            array: [x; N],
            len: len.min(N),
        }
    }

    // The list with no element.
    pub fn new() -> Bounded<T, N>
    where
        T: Default,
        ensures { listed result ≡ [] }
    {
        Bounded::filled(T::default(), 0)
    }

    // Puts x at the end, where there is room.
    pub fn push(&mut self, x: T) -> Result<(), Full>
        ensures ok { OnOk result ((length (listed self.old) < N) × (listed self.new ≡ listed self.old ++ x ∷ [])) }
        ensures err { OnErr result ((N ≤ length (listed self.old)) × (self.new ≡ self.old)) }
    {
        if self.len == N {
            return Err(Full);
        }
        self.array[self.len] = x;
        self.len += 1;
        Ok(())
    }

    // Puts x in the place of the element `at`, if there is one; alters nothing else.
    #[tactic(auto, using(crate::proofs::BoundedLaws::bounded_steps))]
    pub fn set(&mut self, at: usize, x: T)
        ensures list { listed self.new ≡ slice_set (listed self.old) at x }
        ensures rest { unused self.new ≡ unused self.old }
    {
        if at < self.len {
            self.array[at] = x;
        }
    }
}

impl<T, const N: usize> Bounded<T, N> {
    ghost use Rattle.base.specs.Bounded.{listed};

    // How many elements the list has.
    #[tactic(auto, using(crate::proofs::BoundedLaws::bounded_steps))]
    pub fn len(&self) -> usize
        ensures value { result ≡ length (listed self.now) }
        ensures fits { result ≤ N }
    {
        self.len
    }
}

impl<T, const N: usize> DerefSlice for Bounded<T, N> {
    ghost use Rattle.base.specs.Bounded.{listed};

    type Elem = T;

    ghost deref_gives = { λ b xs. (xs ≡ listed b) × (length xs ≤ N) };

    fn deref(&self) -> &[T] {
        &self.array[..self.len]
    }
}

ghost use Rattle.std.specs.Prelude.{◌≡◌, ◌+◌, ◌<◌, [], ◌∷◌, ◌++◌, length};

// The numbers of a line: the first `len` in lent memory.
#[derive(Drop)]
pub struct Line<'a> {
    pub len: usize,
    pub memory: &'a mut [u16],
}

impl<'a> Line<'a> {
    ghost use Rattle.carrier.specs.Lines.{numbers};

    // Puts the number at the line's end.
    pub(crate) fn push(&mut self, number: u16)
        requires { self.old.len < length self.old.memory.now }
        ensures len { self.new.len ≡ self.old.len + 1 }
        ensures limit { length self.new.memory.now ≡ length self.old.memory.now }
        ensures numbers { numbers self.new ≡ numbers self.old ++ (number ∷ []) }
    {
        self.memory[self.len] = number;
        self.len += 1;
    }
}

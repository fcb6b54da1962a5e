ghost use Rattle.std.specs.Prelude.{◌≡◌};

// The vote of a gateway in a slot, for a number.
#[derive(Clone, Copy)]
pub(crate) struct Vote {
    pub(crate) number: u16,
    pub(crate) slot: usize,
    pub(crate) gateway: usize,
}

// A vote in one word is number × 65,536 + slot × 16 + gateway.
impl From<u32> for Vote {
    ghost use Rattle.votes.specs.Tables.{vote_of};

    ghost from_gives = { λ w vote. vote ≡ vote_of w };

    fn from(w: u32) -> Vote {
        Vote {
            number: (w / 65536) as u16,
            slot: (w / 16 % 4096) as usize,
            gateway: (w % 16) as usize,
        }
    }
}

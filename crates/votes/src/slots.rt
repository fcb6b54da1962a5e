// What every gateway has voted for in every slot.
ghost use Rattle.std.specs.Prelude.{◌≡◌, ◌<◌, ◌≤◌, [], length, replicate, slice_index_or};
ghost use Rattle.votes.specs.Kept.{empty_slot};

use crate::slot::{Outcome, Slot, decide};
use crate::vote::Vote;

// The slots of a table, and how many gateways vote in them.
#[derive(Drop)]
pub(crate) struct Slots<'a> {
    gateways: usize,
    votes: &'a mut [Slot],
    ghost few_gateways: { gateways ≤ 8 },
}

// Takes every vote out of the slots.
fn clear(votes: &mut [Slot])
    ensures { votes.new ≡ replicate (length votes.old) empty_slot }
{
    votes.fill(Slot::EMPTY);
}

impl<'a> Slots<'a> {
    ghost use Rattle.votes.specs.Slots.{outcome_of};
    ghost use Rattle.votes.specs.Tables.{is_valid_vote, after_cast, empty_table};
    ghost use Rattle.votes.specs.Votes.{votes_in};

    // Slots in which nobody has voted.
    pub(crate) fn new(gateways: usize, votes: &'a mut [Slot]) -> Slots<'a>
        requires { gateways ≤ 8 }
        ensures gateways { result.gateways ≡ gateways }
        ensures votes { votes_in result ≡ empty_table gateways (length votes.old) }
    {
        clear(votes);
        Slots { gateways, votes }
    }

    // How many slots there are.
    pub(crate) fn len(&self) -> usize
        ensures { result ≡ length (votes_in self.now) }
    {
        self.votes.len()
    }

    // Whether the vote is valid: its gateway, slot and number exist, and the gateway has not voted in the slot.
    fn is_valid(&self, count: u32, vote: Vote) -> bool
        ensures { result ≡ is_valid_vote self.now.gateways count (votes_in self.now) vote }
    {
        if vote.gateway >= self.gateways
            || vote.slot >= self.votes.len()
            || u32::from(vote.number) >= count
        {
            return false;
        }
        let slot = self.votes[vote.slot];
        slot.votes[vote.gateway].is_none()
    }

    // Stores the vote where it is valid.
    pub(crate) fn cast(&mut self, count: u32, vote: Vote)
        ensures gateways { self.new.gateways ≡ self.old.gateways }
        ensures votes { votes_in self.new ≡ after_cast self.old.gateways count (votes_in self.old) vote }
    {
        if self.is_valid(count, vote) {
            self.votes[vote.slot].votes[vote.gateway] = Some(vote.number);
        }
    }

    // What the votes in a slot decide.
    pub(crate) fn outcome(&self, slot: usize) -> Outcome
        requires { slot < length (votes_in self.now) }
        ensures { result ≡ outcome_of (slice_index_or (votes_in self.now) slot []) }
    {
        let slot = self.votes[slot];
        decide(&slot.votes[..self.gateways])
    }
}

// Checking and making a vote table, and what it does as a carrier.
ghost use Rattle.std.specs.Prelude.{◌≡◌, ◌-◌, ◌≤◌, [], length};
ghost use Rattle.base.specs.Refusals.{answered, left};
ghost use Rattle.carrier.specs.Meaning.{Stirred, offered, after_offer, taken, after_take, with_line};
ghost use Rattle.carrier.specs.Logs.{log_meaning, log_limit, at_start};
ghost use Rattle.votes.specs.Tables.{line_of, after_cast, empty_table};
ghost use Rattle.votes.specs.Kept.{Known, Written, Cached};
ghost use Rattle.votes.specs.Limits.{votes_refused};
ghost use Rattle.votes.specs.Votes.{votes_in};
ghost use Rattle.votes.specs.Soundness.{table_sound};
ghost use Rattle.votes.specs.Means.{votes_of, meaning_of, votes_after};

use crate::slot::{Outcome, Slot};
use crate::slots::Slots;
use crate::table::{VoteTable, Voting};
use crate::vote::Vote;
use base::checks::{check_room, check_within};
use base::refusal::Refusal;
use carrier::log::Log;
use carrier::{Carrier, limits};

// Refuses numbers outside their limits, and memory for fewer slots.
pub fn check(
    gateways: u32,
    capacity: u32,
    slots: u32,
    votes: &[Slot],
    line: &[u16],
) -> Result<(), Refusal>
    ensures { result ≡ answered (votes_refused gateways capacity slots (length votes.now) (length line.now)) tt }
{
    limits::check(gateways, capacity, slots as usize)?;
    check_within(1, 1024, slots as usize)?;
    check_room(votes.len(), slots as usize)?;
    check_room(line.len(), slots as usize)
}

impl<'a> Voting<'a> {
    // Writes the line on, up to the first open slot.
    fn write_on(&mut self)
        requires fits { length (votes_in self.old.slots) ≤ log_limit self.old.log }
        requires known { Known (log_meaning self.old.log).count (votes_in self.old.slots) }
        requires written { Written (votes_in self.old.slots) (log_meaning self.old.log).line self.old.first_open }
        ensures slots { self.new.slots ≡ self.old.slots }
        ensures log { log_meaning self.new.log ≡ with_line (log_meaning self.old.log) (log_meaning self.new.log).line }
        ensures limit { log_limit self.new.log ≡ log_limit self.old.log }
        ensures cached { Cached (votes_in self.new.slots) (log_meaning self.new.log).line self.new.first_open }
    {
        for at in self.first_open..self.slots.len() {
            self.first_open = at;
            match self.slots.outcome(at) {
                Outcome::Open => return,
                Outcome::Closed => {}
                Outcome::Locked(number) => {
                    self.log.append(u32::from(number));
                }
            }
        }
        self.first_open = self.slots.len();
    }

    // Stores the vote where it is valid; only one in the first open slot lengthens the line.
    fn vote(&mut self, vote: Vote)
        requires fits { length (votes_in self.old.slots) ≤ log_limit self.old.log }
        requires known { Known (log_meaning self.old.log).count (votes_in self.old.slots) }
        requires cached { Cached (votes_in self.old.slots) (log_meaning self.old.log).line self.old.first_open }
        ensures gateways { self.new.slots.gateways ≡ self.old.slots.gateways }
        ensures votes { votes_in self.new.slots ≡ after_cast self.old.slots.gateways (log_meaning self.old.log).count (votes_in self.old.slots) vote }
        ensures log { log_meaning self.new.log ≡ with_line (log_meaning self.old.log) (log_meaning self.new.log).line }
        ensures limit { log_limit self.new.log ≡ log_limit self.old.log }
        ensures cached { Cached (votes_in self.new.slots) (log_meaning self.new.log).line self.new.first_open }
    {
        self.slots.cast(self.log.count(), vote);
        if vote.slot == self.first_open {
            self.write_on();
        }
    }
}

impl<'a> VoteTable<'a> {
    // A table without votes; of numbers that `check` refuses, one without gateways, capacity and slots.
    pub fn new(
        gateways: u32,
        capacity: u32,
        slots: u32,
        votes: &'a mut [Slot],
        line: &'a mut [u16],
    ) -> VoteTable<'a>
        ensures meaning { meaning_of result ≡ left (votes_refused gateways capacity slots (length votes.old) (length line.old)) (at_start 0 0) (at_start gateways capacity) }
        ensures votes { votes_of result ≡ left (votes_refused gateways capacity slots (length votes.old) (length line.old)) [] (empty_table gateways slots) }
    {
        // Over no memory a log has no gateways and no numbers to give either.
        let room = match check(gateways, capacity, slots, votes, line) {
            Ok(()) => slots as usize,
            Err(_) => 0,
        };
        let log = Log::new(gateways, capacity, &mut line[..room]);
        let slots = Slots::new(log.gateways() as usize, &mut votes[..room]);
        VoteTable {
            voting: Voting {
                log,
                slots,
                first_open: 0,
            },
        }
    }

    // How many numbers are in the line.
    fn len(&self) -> u32
        ensures { result ≡ length (meaning_of self.now).line }
    {
        self.voting.log.len()
    }
}

impl<'a> Carrier for VoteTable<'a> {
    ghost meaning = { meaning_of };

    ghost sound = { table_sound };

    fn gateways(&self) -> u32 {
        self.voting.log.gateways()
    }

    fn capacity(&self) -> u32 {
        self.voting.log.capacity()
    }

    fn count(&self) -> u32 {
        self.voting.log.count()
    }

    // The votes stay.
    fn offer(&mut self) -> Option<u32>
        ensures answer { result ≡ offered (meaning_of self.old) }
        ensures after { meaning_of self.new ≡ after_offer (meaning_of self.old) }
        ensures votes { votes_of self.new ≡ votes_of self.old }
    {
        self.voting.log.offer()
    }

    // A vote; only one in the first open slot lengthens the line.
    fn stir(&mut self, w: u32) -> u32
        ensures stirred { Stirred (meaning_of self.old) (meaning_of self.new) result }
        ensures votes { votes_of self.new ≡ votes_after self.old w }
        ensures line { (meaning_of self.new).line ≡ line_of (votes_after self.old w) }
        ensures joined { result ≡ length (line_of (votes_after self.old w)) - length (line_of (votes_of self.old)) }
    {
        let before = self.len();
        self.voting.vote(Vote::from(w));
        self.len() - before
    }

    // The votes stay.
    fn take(&mut self, gateway: u32) -> Option<u32>
        ensures answer { result ≡ taken (meaning_of self.old) gateway }
        ensures after { meaning_of self.new ≡ after_take (meaning_of self.old) gateway }
        ensures votes { votes_of self.new ≡ votes_of self.old }
    {
        self.voting.log.take(gateway)
    }
}

#[cfg(test)]
mod tests {
    use super::*;

    // A vote in one word.
    fn word(number: u32, slot: u32, gateway: u32) -> u32 {
        number
            .wrapping_mul(65536)
            .wrapping_add(slot.wrapping_mul(16))
            .wrapping_add(gateway)
    }

    fn offer_six<C: Carrier>(carrier: &mut C) {
        for _ in 0..6 {
            carrier.offer();
        }
    }

    // Whether `check` passes these numbers with so much memory.
    fn passes(gateways: u32, capacity: u32, slots: u32, votes: &[Slot], line: &[u16]) -> bool {
        check(gateways, capacity, slots, votes, line).is_ok()
    }

    // Each number at both ends of its limits, and one past an end.
    #[test]
    fn limits_at_their_ends(rt: HostRuntime) {
        let votes = [Slot::EMPTY; 1024];
        let line = [0; 1024];
        for (gateways, capacity, slots) in [(1, 1, 1), (8, 1024, 1024)] {
            assert!(rt; passes(gateways, capacity, slots, &votes, &line));
        }
        for (gateways, capacity, slots) in [
            (0, 1, 1),
            (9, 1, 1),
            (1, 0, 1),
            (1, 1025, 1),
            (1, 1, 0),
            (1, 1, 1025),
        ] {
            assert!(rt; !passes(gateways, capacity, slots, &votes, &line));
        }
    }

    #[test]
    fn memory_one_too_short(rt: HostRuntime) {
        let votes = [Slot::EMPTY; 2];
        let line = [0; 2];
        assert_eq!(rt; passes(1, 1, 2, &votes, &line), true);
        assert_eq!(rt; passes(1, 1, 2, &votes[0..1], &line), false);
        assert_eq!(rt; passes(1, 1, 2, &votes, &line[0..1]), false);
    }

    #[test]
    fn two_of_three_lock_a_slot(rt: HostRuntime) {
        let mut votes = [Slot::EMPTY; 2];
        let mut line = [0u16; 2];
        let mut t = VoteTable::new(3, 6, 2, &mut votes, &mut line);
        offer_six(&mut t);
        assert_eq!(rt; t.stir(327681), 0);
        assert_eq!(rt; t.take(0), None);
        assert_eq!(rt; t.stir(327682), 1);
        assert_eq!(rt; t.take(0), Some(5));
        assert_eq!(rt; t.take(0), None);
        assert_eq!(rt; t.take(3), None);
    }

    #[test]
    fn votes_that_do_not_count(rt: HostRuntime) {
        let mut votes = [Slot::EMPTY; 2];
        let mut line = [0u16; 2];
        let mut t = VoteTable::new(1, 8, 2, &mut votes, &mut line);
        offer_six(&mut t);
        for (number, slot, gateway, joined) in [
            (6, 0, 0, 0),
            (5, 2, 0, 0),
            (5, 0, 1, 0),
            (5, 0, 0, 1),
            (4, 0, 0, 0),
        ] {
            assert_eq!(rt; t.stir(word(number, slot, gateway)), joined);
        }
        assert_eq!(rt; t.take(0), Some(5));
    }

    #[test]
    fn a_closed_slot_is_skipped_and_several_join_at_once(rt: HostRuntime) {
        let mut votes = [Slot::EMPTY; 4];
        let mut line = [0u16; 4];
        let mut t = VoteTable::new(2, 8, 4, &mut votes, &mut line);
        offer_six(&mut t);
        // Slot 1 is closed, slots 2 and 3 are locked, and slot 0 is open until its second vote.
        for (number, slot, gateway, joined) in [
            (1, 1, 0, 0),
            (2, 1, 1, 0),
            (3, 2, 0, 0),
            (3, 2, 1, 0),
            (0, 3, 0, 0),
            (0, 3, 1, 0),
            (4, 0, 0, 0),
            (4, 0, 1, 3),
        ] {
            assert_eq!(rt; t.stir(word(number, slot, gateway)), joined);
        }
        for number in [Some(4), Some(3), Some(0), None] {
            assert_eq!(rt; t.take(1), number);
        }
    }

    #[test]
    fn capacity_is_reached(rt: HostRuntime) {
        let mut votes = [Slot::EMPTY; 1];
        let mut line = [0u16; 1];
        let mut t = VoteTable::new(1, 1, 1, &mut votes, &mut line);
        assert_eq!(rt; t.offer(), Some(0));
        assert_eq!(rt; t.offer(), None);
        assert_eq!(rt; t.count(), 1);
    }

    #[test]
    fn a_refused_making_has_no_gateways(rt: HostRuntime) {
        let mut votes = [Slot::EMPTY; 1];
        let mut line = [0u16; 1];
        let mut t = VoteTable::new(1, 1, 2, &mut votes, &mut line);
        assert_eq!(rt; t.gateways(), 0);
        assert_eq!(rt; t.capacity(), 0);
        assert_eq!(rt; t.offer(), None);
    }
}

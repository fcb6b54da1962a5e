// The vote table.
ghost use Rattle.std.specs.Prelude.{◌≡◌, ◌≤◌, length};
ghost use Rattle.carrier.specs.Logs.{log_meaning, log_limit};
ghost use Rattle.votes.specs.Kept.{Known, Cached};
ghost use Rattle.votes.specs.Votes.{votes_in};

use crate::slots::Slots;
use carrier::log::Log;

// Votes, the line that they make, and the first slot that the line has not passed.
#[derive(Drop)]
pub(crate) struct Voting<'a> {
    pub(crate) log: Log<'a>,
    pub(crate) slots: Slots<'a>,
    pub(crate) first_open: usize,
}

// Votes and the line that they make, which is kept as it grows.
#[derive(Drop)]
pub struct VoteTable<'a> {
    pub(crate) voting: Voting<'a>,
    ghost gateways_of_log: { voting.slots.gateways ≡ (log_meaning voting.log).gateways },
    ghost few_slots: { length (votes_in voting.slots) ≤ 1024 },
    ghost slots_within_limit: { length (votes_in voting.slots) ≤ log_limit voting.log },
    ghost votes_known: { Known (log_meaning voting.log).count (votes_in voting.slots) },
    ghost line_cached: { Cached (votes_in voting.slots) (log_meaning voting.log).line voting.first_open },
}

// One slot of the table: the votes in it, and what they decide.
ghost use Rattle.std.specs.Prelude.{◌≡◌};
ghost use Rattle.votes.specs.Slots.{votes_for, majority as majority-of, wins, locked, all_voted, outcome_of};

// The vote of each gateway, at the gateway's number.
#[derive(Clone, Copy)]
pub struct Slot {
    pub(crate) votes: [Option<u16>; 8],
}

impl Slot {
    // A slot in which nobody has voted.
    pub const EMPTY: Slot = Slot { votes: [None; 8] };
}

// What the votes in a slot decide.
#[derive(Clone, Copy, PartialEq, Eq, Debug)]
pub enum Outcome {
    // Neither locked nor closed.
    Open,
    // A majority has voted for this number.
    Locked(u16),
    // All have voted, and no number has a majority.
    Closed,
}

// How many have voted for the number.
fn tally(votes: &[Option<u16>], number: u16) -> usize
    ensures { result ≡ votes_for number votes.now }
{
    votes.iter().filter(|vote| **vote == Some(number)).count()
}

// How many votes lock a slot.
fn majority(votes: &[Option<u16>]) -> usize
    ensures { result ≡ majority-of votes.now }
{
    votes.len() / 2 + 1
}

// Whether a majority has voted as this vote does.
fn has_majority(votes: &[Option<u16>], vote: Option<u16>) -> bool
    ensures { result ≡ wins votes.now vote }
{
    vote.is_some_and(|number| tally(votes, number) >= majority(votes))
}

// The number that a majority has voted for.
fn locked_number(votes: &[Option<u16>]) -> Option<u16>
    ensures { result ≡ locked votes.now }
{
    votes
        .iter()
        .find(|vote| has_majority(votes, **vote))
        .copied()
        .flatten()
}

// Whether every gateway has voted.
fn all_have_voted(votes: &[Option<u16>]) -> bool
    ensures { result ≡ all_voted votes.now }
{
    votes.iter().all(|vote| vote.is_some())
}

// What the votes decide.
pub fn decide(votes: &[Option<u16>]) -> Outcome
    ensures { result ≡ outcome_of votes.now }
{
    match locked_number(votes) {
        Some(n) => Outcome::Locked(n),
        None if all_have_voted(votes) => Outcome::Closed,
        None => Outcome::Open,
    }
}

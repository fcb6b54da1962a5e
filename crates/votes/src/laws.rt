// Laws of voting. Each function only states its law: there is nothing to compute.
ghost use Rattle.std.specs.Prelude.{◌≡◌, [], ◌∷◌};
ghost use Rattle.votes.specs.Tables.{gateway_of, slot_of, number_of};
ghost use Rattle.votes.specs.Laws.{OneMajority, LockedByMajority, LockedStays, ClosedStays, LineGrowsAtEnd, VotesStay, line_of_three};

fn one_majority()
    ensures one { OneMajority }
    ensures locked { LockedByMajority }
{}

fn locked_stays()
    ensures { LockedStays }
{}

fn closed_stays()
    ensures { ClosedStays }
{}

fn line_grows_at_end()
    ensures { LineGrowsAtEnd }
{}

fn votes_stay()
    ensures { VotesStay }
{}

// What is decided stays decided, whatever is voted later.
pub fn votes_are_final()
    ensures one_majority { OneMajority }
    ensures locked_by_majority { LockedByMajority }
    ensures locked_stays { LockedStays }
    ensures closed_stays { ClosedStays }
    ensures line_grows_at_end { LineGrowsAtEnd }
    ensures votes_stay { VotesStay }
{
    one_majority();
    locked_stays();
    closed_stays();
    line_grows_at_end();
    votes_stay();
}

// Two of three gateways lock a slot: gateways 1 and 2 vote for number 5 in slot 0.
pub fn two_of_three_lock()
    ensures vote { (gateway_of 327681 ≡ 1) × (slot_of 327681 ≡ 0) × (number_of 327681 ≡ 5) }
    ensures open { line_of_three (327681 ∷ []) ≡ [] }
    ensures locked { line_of_three (327681 ∷ 327682 ∷ []) ≡ 5 ∷ [] }
{}

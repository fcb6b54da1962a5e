// What calls are refused for, one condition each.
ghost use Rattle.std.specs.Prelude.{◌≡◌, ◌*◌, ◌<◌, ◌≤◌, [], ◌∷◌, nat_le, IfOk, OnOk};
ghost use Rattle.base.specs.Refusals.{answered, first};
ghost use Rattle.site.specs.Checks.{short_cells, short_notes, short_updates, no_gateway, no_change, no_setting, not_open};
ghost use Rattle.site.specs.Kept.{WellFormed};
ghost use Rattle.site.specs.Tables.{change_count, gateway_count, record_of};

use crate::site::Site;
use base::checks::check_room;
use base::refusal::Refusal;
use protocol::records::{Change, State};

// Whether a number is one of `count`, counted from 0; the refusal where it is not.
fn check_known(n: u32, count: usize, unknown: Refusal) -> Result<(), Refusal>
    ensures answer { result ≡ answered (first ((nat_le count n, unknown) ∷ [])) tt }
    ensures fine { OnOk result (n < count) }
{
    if n as usize >= count {
        return Err(unknown);
    }
    Ok(())
}

// Whether the change is open.
pub(crate) fn check_open(c: Change) -> Result<Change, Refusal>
    ensures { result ≡ answered (first (not_open c ∷ [])) c }
{
    match c.state {
        State::Open => Ok(c),
        _ => Err(Refusal::NotOpen),
    }
}

impl<V> Site<V> {
    // Whether so many cells are enough.
    pub(crate) fn check_cells(&self, cells: usize) -> Result<(), Refusal>
        ensures answer { result ≡ answered (first (short_cells self.now cells ∷ [])) tt }
        ensures fine { OnOk result (self.now.settings * gateway_count self.now ≤ cells) }
    {
        check_room(cells, self.settings * self.gateways.len())
    }

    // Whether so many notes are enough.
    pub(crate) fn check_notes(&self, notes: usize) -> Result<(), Refusal>
        ensures answer { result ≡ answered (first (short_notes self.now notes ∷ [])) tt }
        ensures fine { OnOk result (16 * self.now.limit ≤ notes) }
    {
        check_room(notes, 16 * self.limit)
    }

    // Whether so many updates are enough.
    pub(crate) fn check_updates(&self, updates: usize) -> Result<(), Refusal>
        ensures answer { result ≡ answered (first (short_updates self.now updates ∷ [])) tt }
        ensures fine { OnOk result (8 * self.now.limit ≤ updates) }
    {
        check_room(updates, 8 * self.limit)
    }

    // Whether there is such a gateway.
    pub(crate) fn check_gateway(&self, gateway: u32) -> Result<(), Refusal>
        ensures answer { result ≡ answered (first (no_gateway self.now gateway ∷ [])) tt }
        ensures fine { OnOk result (gateway < gateway_count self.now) }
    {
        check_known(gateway, self.gateways.len(), Refusal::UnknownGateway)
    }

    // Whether there is such a setting.
    pub(crate) fn check_setting(&self, setting: u32) -> Result<(), Refusal>
        ensures answer { result ≡ answered (first (no_setting self.now setting ∷ [])) tt }
        ensures fine { OnOk result (setting < self.now.settings) }
    {
        check_known(setting, self.settings, Refusal::UnknownSetting)
    }

    // The change with the number.
    pub(crate) fn known_change(&self, change: u32) -> Result<Change, Refusal>
        ensures answer { result ≡ answered (first (no_change self.now change ∷ [])) (record_of self.now change) }
        ensures fine { IfOk result (λ c. (change < change_count self.now) × WellFormed (gateway_count self.now) c) }
    {
        self.changes
            .get(change as usize)
            .copied()
            .ok_or(Refusal::UnknownChange)
    }
}

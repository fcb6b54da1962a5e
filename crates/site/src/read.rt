ghost use Rattle.std.specs.Prelude.{◌≡◌, ◌+◌, ◌*◌, ◌<◌, ◌≤◌, length, Some, IfOk, OnOk, nat_lt};
ghost use Rattle.std.specs.List.{slice_get};
ghost use Rattle.base.specs.Bounded.{listed};
ghost use Rattle.base.specs.Lists.{lookup};
ghost use Rattle.base.specs.Refusals.{answered};
ghost use Rattle.protocol.specs.Paths.{depth};
ghost use Rattle.protocol.specs.Calls.{or_else};
ghost use Rattle.site.specs.Checks.{may_read, home_index, home_answer};
ghost use Rattle.site.specs.Contract.{SameBeside, Reads};
ghost use Rattle.site.specs.Kept.{WellFormed};
ghost use Rattle.site.specs.Tables.{change_count, gateway_count, record_of};

use crate::checks::check_open;
use crate::rows::front_of_row;
use crate::site::Site;
use base::lists::append;
use base::refusal::Refusal;
use base::value::Value;
use protocol::entries::value_of;
use protocol::paths::depth;
use protocol::records::{Cell, Change, Note, Update};

// Whether a cell written at one depth is newer than a point at another.
fn is_deeper(cell: u32, point: usize) -> bool
    ensures { result ≡ nat_lt point cell }
{
    point < cell as usize
}

// What a change itself says of the setting: its own update, else its note.
fn known<V: Value>(written: &[Update<V>], noted: &[Note<V>], setting: u32) -> Option<V>
    ensures { result ≡ or_else (lookup (λ u. u.setting) (λ u. u.value) setting written.now) (lookup (λ n. n.setting) (λ n. n.value) setting noted.now) }
{
    value_of(written, setting).or_else(|| value_of(noted, setting))
}

impl<V: Value> Site<V> {
    // The change, if it may read the setting, over tables of these lengths, but for what the home cell holds.
    fn may_read(
        &self,
        cells: usize,
        notes: usize,
        updates: usize,
        change: u32,
        setting: u32,
    ) -> Result<Change, Refusal>
        ensures answer { result ≡ answered (may_read self.now cells notes updates change setting) (record_of self.now change) }
        ensures room { OnOk result ((self.now.settings * gateway_count self.now ≤ cells) × (16 * self.now.limit ≤ notes) × (8 * self.now.limit ≤ updates)) }
        ensures fine { IfOk result (λ c. (change < change_count self.now) × (setting < self.now.settings) × WellFormed (gateway_count self.now) c) }
    {
        self.check_cells(cells)?;
        self.check_notes(notes)?;
        self.check_updates(updates)?;
        let c = self.known_change(change)?;
        self.check_setting(setting)?;
        check_open(c)
    }

    // The home cell's value, unless it was written deeper than the opening point.
    fn home_value(&self, cells: &[Cell<V>], c: Change, setting: u32) -> Result<V, Refusal>
        requires home_known { c.home < gateway_count self.now }
        requires setting_known { setting < self.now.settings }
        requires cells_room { self.now.settings * gateway_count self.now ≤ length cells.now }
        ensures { Some result ≡ home_answer (depth (listed self.now.messages) c.opening) (slice_get cells.now (home_index self.now c setting)) }
    {
        let cell = cells[self.cell_index(c.home, setting)];
        if is_deeper(cell.depth, depth(&self.messages, c.opening)) {
            return Err(Refusal::Overwritten);
        }
        Ok(cell.value)
    }

    // The change's own update of the setting, else its note, else the home cell's value, which is noted.
    pub fn read(
        &mut self,
        cells: &[Cell<V>],
        notes: &mut [Note<V>],
        updates: &[Update<V>],
        change: u32,
        setting: u32,
    ) -> Result<V, Refusal>
        ensures does { Reads self.old cells.now notes.old updates.now change setting result self.new notes.new }
        ensures beside { SameBeside 16 change notes.old notes.new }
    {
        let c = self.may_read(cells.len(), notes.len(), updates.len(), change, setting)?;
        let k = change as usize;
        let written = front_of_row::<_, 8>(updates, k, c.updates);
        if let Some(value) = known(written, front_of_row::<_, 16>(notes, k, c.notes), setting) {
            return Ok(value);
        }
        let value = self.home_value(cells, c, setting)?;
        let row = &mut notes[16 * k..16 * k + 16];
        let Some(n) = append(row, c.notes, Note { setting, value }) else {
            return Err(Refusal::Full);
        };
        self.set_change(k, Change { notes: n, ..c });
        Ok(value)
    }
}

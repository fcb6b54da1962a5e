ghost use Rattle.std.specs.Prelude.{◌≡◌, ℕ, ◌+◌, ◌*◌, ◌<◌, ◌≤◌, map, length, take, drop};
ghost use Rattle.protocol.specs.Calls.{initial_cell};
ghost use Rattle.site.specs.Tables.{row, gateway_count};

use crate::site::Site;
use base::value::Value;
use protocol::records::Cell;

impl<V> Site<V> {
    // Where a gateway's cell for a setting lies in the table of cells.
    pub(crate) fn cell_index(&self, gateway: u32, setting: u32) -> usize
        requires gateway_known { gateway < gateway_count self.now }
        requires setting_known { setting < self.now.settings }
        ensures value { result ≡ self.now.settings * gateway + setting }
        ensures within { result < self.now.settings * gateway_count self.now }
    {
        self.settings * gateway as usize + setting as usize
    }
}

// Puts the initial values into the cells of one gateway.
fn fill_row<V: Value>(cells: &mut [Cell<V>], initial: &[V])
    requires { length cells.old ≤ length initial.now }
    ensures { cells.new ≡ map initial_cell (take (length cells.old) initial.now) }
{
    for (i, value) in initial[..cells.len()].iter().enumerate() {
        cells[i] = Cell {
            value: *value,
            depth: 0,
        };
    }
}

impl<V: Value> Site<V> {
    // Puts the initial values into the cells of every gateway.
    pub(crate) fn fill_rows(&self, cells: &mut [Cell<V>], initial: &[V])
        requires cells_room { self.now.settings * gateway_count self.now ≤ length cells.old }
        requires initial_room { self.now.settings ≤ length initial.now }
        ensures filled { (g : ℕ) → g < gateway_count self.now → row self.now.settings g cells.new ≡ map initial_cell (take self.now.settings initial.now) }
        ensures beyond { drop (self.now.settings * gateway_count self.now) cells.new ≡ drop (self.now.settings * gateway_count self.now) cells.old }
    {
        for g in 0..self.gateways.len() {
            let start = self.settings * g;
            fill_row(&mut cells[start..start + self.settings], initial);
        }
    }
}

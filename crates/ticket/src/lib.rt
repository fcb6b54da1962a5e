// Tickets: a change in the hands of the code that opened it.
#![tactic(auto)]

ghost use Rattle.std.specs.Prelude.{◌≡◌};
ghost use Rattle.site.specs.Contract.{Abandons, Opens, Reads, SameBeside, Submits, Writes};
ghost use Rattle.ticket.specs.Tickets.{numbered};

use base::refusal::Refusal;
use base::value::Value;
use protocol::records::{Cell, Note, Update};
use site::Site;

// The right to read and write through one open change. A ticket cannot be dropped: it ends in submit or abandon, which
// spend it even when they refuse.
pub struct Ticket {
    change: u32,
}

impl Ticket {
    // Opens a change at a gateway.
    pub fn open<V: Value>(site: &mut Site<V>, gateway: u32) -> Result<Ticket, Refusal>
        ensures { Opens site.old gateway (numbered result) site.new }
    {
        let change = site.open(gateway)?;
        Ok(Ticket { change })
    }

    // The number of the change.
    pub fn number(&self) -> u32
        ensures { result ≡ self.now.change }
    {
        let Ticket { change } = self;
        *change
    }

    // Reads a setting in the change.
    pub fn read<V: Value>(
        &self,
        site: &mut Site<V>,
        cells: &[Cell<V>],
        notes: &mut [Note<V>],
        updates: &[Update<V>],
        setting: u32,
    ) -> Result<V, Refusal>
        ensures does { Reads site.old cells.now notes.old updates.now self.now.change setting result site.new notes.new }
        ensures beside { SameBeside 16 self.now.change notes.old notes.new }
    {
        site.read(cells, notes, updates, self.change, setting)
    }

    // Writes a setting in the change.
    pub fn write<V: Value>(
        &self,
        site: &mut Site<V>,
        updates: &mut [Update<V>],
        setting: u32,
        value: V,
    ) -> Result<(), Refusal>
        ensures does { Writes site.old updates.old self.now.change setting value result site.new updates.new }
        ensures beside { SameBeside 8 self.now.change updates.old updates.new }
    {
        site.write(updates, self.change, setting, value)
    }

    // Submits the change and spends the ticket; how many updates are left.
    pub fn submit<V: Value>(
        self,
        site: &mut Site<V>,
        notes: &[Note<V>],
        updates: &mut [Update<V>],
    ) -> Result<u32, Refusal>
        ensures does { Submits V.Value.alike site.old notes.now updates.old self.change result site.new updates.new }
        ensures beside { SameBeside 8 self.change updates.old updates.new }
    {
        let Ticket { change } = self;
        site.submit(notes, updates, change)
    }

    // Abandons the change and spends the ticket.
    pub fn abandon<V: Value>(self, site: &mut Site<V>) -> Result<(), Refusal>
        ensures { Abandons site.old self.change result site.new }
    {
        let Ticket { change } = self;
        site.abandon(change)
    }
}

ghost use Rattle.std.specs.Prelude.{◌<◌};
ghost use Rattle.site.specs.Kept.{WellFormed};
ghost use Rattle.site.specs.State.{ChangeSet, ChangeAdded};
ghost use Rattle.site.specs.Tables.{change_count, gateway_count};

use crate::site::Site;
use protocol::records::Change;

impl<V> Site<V> {
    // Puts another record in the place of a change.
    pub(crate) fn set_change(&mut self, k: usize, c: Change)
        requires known { k < change_count self.old }
        requires well_formed { WellFormed (gateway_count self.old) c }
        ensures { ChangeSet self.old k c self.new }
    {
        self.changes.set(k, c);
    }

    // Adds a change.
    pub(crate) fn add_change(&mut self, c: Change)
        requires room { change_count self.old < self.old.limit }
        requires well_formed { WellFormed (gateway_count self.old) c }
        ensures { ChangeAdded self.old c self.new }
    {
        // There is room: the limit is at most the length of the list.
        let _ = self.changes.push(c);
    }
}

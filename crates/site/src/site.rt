ghost use Rattle.std.specs.Prelude.{◌≤◌, length, All};
ghost use Rattle.base.specs.Bounded.{listed};
ghost use Rattle.site.specs.Kept.{WellFormed};

use base::bounded::Bounded;
use protocol::records::{Change, Gateway, Message};
use std::marker::PhantomData;

// The settings of a battery site on its gateways, for values of type V: the site's own record. Cells, notes and updates
// lie in tables that the caller lends to each call; the site allocates nothing.
#[derive(Drop)]
pub struct Site<V> {
    pub(crate) messages: Bounded<Message, 1024>,
    pub(crate) changes: Bounded<Change, 256>,
    pub(crate) gateways: Bounded<Gateway, 8>,
    // How many settings there are.
    pub(crate) settings: usize,
    // How many changes there can be.
    pub(crate) limit: usize,
    pub(crate) values: PhantomData<V>,
    ghost few_messages: { length (listed messages) ≤ 1024 },
    ghost few_changes: { length (listed changes) ≤ limit },
    ghost low_limit: { limit ≤ 256 },
    ghost few_gateways: { length (listed gateways) ≤ 8 },
    ghost few_settings: { settings ≤ 64 },
    ghost well_formed: { All (WellFormed (length (listed gateways))) (listed changes) },
}

// One command of a script, performed on a site of watts over any carrier.
#![tactic(auto)]

ghost use Rattle.std.specs.Prelude.{◌≡◌};
ghost use Rattle.rehearsal.specs.Performs.{Performs};

use base::refusal::Refusal;
use base::watts::Watts;
use carrier::Carrier;
use protocol::records::{Cell, Note, Update};
use script::command::Command;
use site::Site;

// Makes the call that the command asks for on a started site; what the listing's value column holds, or the refusal. A
// second start is refused.
pub fn perform<C: Carrier>(
    site: &mut Site<Watts>,
    carrier: &mut C,
    cells: &[Cell<Watts>],
    notes: &mut [Note<Watts>],
    updates: &mut [Update<Watts>],
    command: Command,
) -> Result<Option<i64>, Refusal>
    ensures { Performs command site.old (C.meaning carrier.old) cells.now notes.old updates.old result site.new (C.meaning carrier.new) notes.new updates.new (carrier.new ≡ carrier.old) }
{
    match command {
        Command::Start { .. } => Err(Refusal::Limits),
        Command::Open { gateway } => {
            let number = site.open(gateway)?;
            Ok(Some(i64::from(number)))
        }
        Command::Read { change, setting } => {
            let Watts(watts) = site.read(cells, notes, updates, change, setting)?;
            Ok(Some(i64::from(watts)))
        }
        Command::Write {
            change,
            setting,
            watts,
        } => {
            site.write(updates, change, setting, Watts(watts))?;
            Ok(None)
        }
        Command::Submit { change } => {
            let left = site.submit(notes, updates, change)?;
            Ok(Some(i64::from(left)))
        }
        Command::Abandon { change } => {
            site.abandon(change)?;
            Ok(None)
        }
        Command::Stir { w } => {
            let joined = site.stir(carrier, w)?;
            Ok(Some(i64::from(joined)))
        }
        Command::Look { gateway, setting } => {
            let Watts(watts) = site.look(cells, gateway, setting)?;
            Ok(Some(i64::from(watts)))
        }
    }
}

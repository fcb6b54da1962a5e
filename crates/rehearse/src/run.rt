ghost use Rattle.std.specs.Prelude.{◌≡◌, IfOk, OnErr};

use crate::desk::Desk;
use base::refusal::Refusal;
use base::watts::Watts;
use carrier::Carrier;
use protocol::records::{Cell, Note, Update};
use rehearsal::perform;
use script::command::Command;
use script::event::Event;
use script::fault::RowFault;
use script::listing::{Answered, listing_header};
use site::Site;
use std::io;
use std::io::{BufWriter, Read, Write};
use votes::slot::Slot;
use votes::table::VoteTable;
use wire::Wire;

const CHANGES: u32 = 64;

const CAPACITY: u32 = 256;

const LINE_LIMIT: u32 = 1024;

const SLOTS: u32 = 64;

// The carrier that a rehearsal runs on.
#[derive(Clone, Copy)]
pub(crate) enum Broadcast {
    Wire,
    Votes,
}

// Performs the rest of the script on a started site.
fn run_site<C: Carrier, R: Read, W: Write>(
    desk: &mut Desk<R, W>,
    mut site: Site<Watts>,
    carrier: &mut C,
    cells: &[Cell<Watts>],
) -> io::Result<()> {
    let mut notes = [Note {
        setting: 0,
        value: Watts(0),
    }; 1024];
    let mut updates = [Update {
        setting: 0,
        value: Watts(0),
    }; 512];
    while let Some((event, command)) = desk.next_command()? {
        let answer = perform(&mut site, carrier, cells, &mut notes, &mut updates, command);
        desk.list(Ok(Answered { event, answer }))?;
    }
    Ok(())
}

// Starts a site over the carrier and performs the rest of the script on it; the refusal where it does not start.
fn start_over<C: Carrier, R: Read, W: Write>(
    desk: &mut Desk<R, W>,
    carrier: &mut C,
    settings: u32,
    watts: Watts,
) -> io::Result<Result<(), Refusal>>
    ensures { IfOk result (λ started. OnErr started (desk.new ≡ desk.old)) }
{
    let initial = [watts; 64];
    let mut cells = [Cell {
        value: Watts(0),
        depth: 0,
    }; 512];
    match Site::new(carrier, settings, CHANGES, &initial, &mut cells) {
        Err(refusal) => Ok(Err(refusal)),
        Ok(site) => {
            desk.list(Ok(Answered {
                event: Event::Start,
                answer: Ok(None),
            }))?;
            run_site(desk, site, carrier, &cells)?;
            Ok(Ok(()))
        }
    }
}

// Makes the carrier for so many gateways and starts a site over it, as `start_over` does.
fn start_by<R: Read, W: Write>(
    desk: &mut Desk<R, W>,
    broadcast: Broadcast,
    gateways: u32,
    settings: u32,
    watts: Watts,
) -> io::Result<Result<(), Refusal>>
    ensures { IfOk result (λ started. OnErr started (desk.new ≡ desk.old)) }
{
    match broadcast {
        Broadcast::Wire => {
            let mut line = [0; 1024];
            let mut wire = Wire::new(gateways, CAPACITY, LINE_LIMIT, &mut line);
            start_over(desk, &mut wire, settings, watts)
        }
        Broadcast::Votes => {
            let mut votes = [Slot::EMPTY; 64];
            let mut line = [0; 64];
            let mut table = VoteTable::new(gateways, CAPACITY, SLOTS, &mut votes, &mut line);
            start_over(desk, &mut table, settings, watts)
        }
    }
}

// Performs the script from its first row on. What comes before a start is refused.
fn run_script<R: Read, W: Write>(desk: &mut Desk<R, W>, broadcast: Broadcast) -> io::Result<()> {
    while let Some((event, command)) = desk.next_command()? {
        let started = match command {
            Command::Start {
                gateways,
                settings,
                watts,
            } => start_by(desk, broadcast, gateways, settings, Watts(watts))?,
            _ => Err(Refusal::Limits),
        };
        match started {
            Ok(()) => break,
            Err(refusal) => desk.list(Ok(Answered {
                event,
                answer: Err(refusal),
            }))?,
        }
    }
    Ok(())
}

// Reads the script from standard input and writes the listing to standard output.
pub(crate) fn rehearse(rt: &HostRuntime, broadcast: Broadcast) -> io::Result<()> {
    let mut out = BufWriter::new(rt.alloc(), rt.stdout())?;
    out.write_all(listing_header())?;
    let mut desk = Desk::new(rt.stdin(), out);
    if desk.takes_header()? {
        run_script(&mut desk, broadcast)?;
    } else {
        desk.list(Err(RowFault::HEADER))?;
    }
    desk.flush()
}

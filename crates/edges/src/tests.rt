use base::refusal::Refusal;
use base::value::Value;
use base::watts::Watts;
use protocol::records::{Cell, Note, Update};
use site::Site;
use std::array;
use std::fmt::Debug;
use std::test::Fail;
use wire::Wire;

mod limits;
mod refusals;
mod rows;
mod tables;
mod tickets;
mod windows;

const CELL: Cell<Watts> = Cell {
    value: Watts(0),
    depth: 0,
};

const NOTE: Note<Watts> = Note {
    setting: 0,
    value: Watts(0),
};

const UPDATE: Update<Watts> = Update {
    setting: 0,
    value: Watts(0),
};

// The initial value of a setting.
fn first(setting: u32) -> Watts {
    Watts(2000 + (setting % 100) as i32)
}

// Starts a site of these numbers over the tables and a wire of its own.
fn start<V: Value>(
    gateways: u32,
    settings: u32,
    changes: u32,
    initial: &[V],
    cells: &mut [Cell<V>],
) -> Result<Site<V>, Refusal> {
    let mut memory = [0; 1];
    let wire = Wire::new(gateways, 1, 1, &mut memory);
    Site::new(&wire, settings, changes, initial, cells)
}

// Starts a site with the initial values of the settings.
fn started(
    gateways: u32,
    settings: u32,
    changes: u32,
    cells: &mut [Cell<Watts>],
) -> Result<Site<Watts>, Refusal> {
    let initial: [Watts; 64] = array::from_fn(|setting| first(setting as u32));
    start(gateways, settings, changes, &initial, cells)
}

// Whether a site of these numbers starts over the tables.
fn starts(
    gateways: u32,
    settings: u32,
    changes: u32,
    initial: &[Watts],
    cells: &mut [Cell<Watts>],
) -> Result<(), Refusal> {
    start(gateways, settings, changes, initial, cells)?;
    Ok(())
}

// Whether a site starts over the wire and the tables.
fn starts_over(
    wire: &Wire,
    settings: u32,
    changes: u32,
    initial: &[Watts],
    cells: &mut [Cell<Watts>],
) -> Result<(), Refusal> {
    Site::new(wire, settings, changes, initial, cells)?;
    Ok(())
}

// Writes 1 to so many settings.
fn write_settings(
    site: &mut Site<Watts>,
    updates: &mut [Update<Watts>],
    change: u32,
    count: u32,
) -> Result<(), Refusal> {
    for setting in 0..count {
        site.write(updates, change, setting, Watts(1))?;
    }
    Ok(())
}

// Fails where the answer is not the wanted one.
fn check_eq<T: PartialEq + Debug + Drop>(answer: T, wanted: T) -> Result<(), Fail> {
    if answer == wanted {
        return Ok(());
    }
    Err(Fail::new(format_args!("{answer:?} in place of {wanted:?}")))
}

// Reads so many settings, which hold their initial values.
fn read_settings(
    site: &mut Site<Watts>,
    cells: &[Cell<Watts>],
    notes: &mut [Note<Watts>],
    updates: &[Update<Watts>],
    change: u32,
    count: u32,
) -> Result<(), Fail> {
    for setting in 0..count {
        check_eq(
            site.read(cells, notes, updates, change, setting),
            Ok(first(setting)),
        )?;
    }
    Ok(())
}

// Opens so many changes at gateway 0, numbered from 0.
fn open_changes(site: &mut Site<Watts>, count: u32) -> Result<(), Fail> {
    for number in 0..count {
        check_eq(site.open(0), Ok(number))?;
    }
    Ok(())
}

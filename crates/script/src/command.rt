// A row of the script under the names of its fields.
ghost use Rattle.std.specs.Prelude.{◌≡◌};
ghost use Rattle.std.specs.Option.{ok_or};
ghost use Rattle.script.specs.Commands.{command_of};
ghost use Rattle.script.specs.declared.fault.Cause.TheVariants.{Shape};

use crate::event::Event;
use crate::fault::RowFault;
use crate::row::Row;

// What a row asks for.
#[derive(Clone, Copy)]
pub enum Command {
    Start {
        gateways: u32,
        settings: u32,
        watts: i32,
    },
    Open {
        gateway: u32,
    },
    Read {
        change: u32,
        setting: u32,
    },
    Write {
        change: u32,
        setting: u32,
        watts: i32,
    },
    Submit {
        change: u32,
    },
    Abandon {
        change: u32,
    },
    Stir {
        w: u32,
    },
    Look {
        gateway: u32,
        setting: u32,
    },
}

// A row lacks a field that its event requires.
#[derive(Clone, Copy, PartialEq, Eq, Debug)]
pub struct MissingField;

impl From<MissingField> for RowFault {
    ghost from_gives = { λ _ t. (t.field ≡ 5) × (t.cause ≡ Shape) };

    fn from(_fault: MissingField) -> RowFault {
        RowFault::SHAPE
    }
}

// The command of a row; a fault where a field is missing that its event requires.
impl TryFrom<Row> for Command {
    type Error = MissingField;

    ghost try_from_gives = { λ row r. r ≡ ok_or (command_of row) (record {}) };

    fn try_from(row: Row) -> Result<Command, MissingField> {
        match (row.event, row.a, row.b, row.c) {
            (Event::Start, Some(gateways), Some(settings), Some(watts)) => Ok(Command::Start {
                gateways,
                settings,
                watts,
            }),
            (Event::Open, Some(gateway), _, _) => Ok(Command::Open { gateway }),
            (Event::Read, Some(change), Some(setting), _) => Ok(Command::Read { change, setting }),
            (Event::Write, Some(change), Some(setting), Some(watts)) => Ok(Command::Write {
                change,
                setting,
                watts,
            }),
            (Event::Submit, Some(change), _, _) => Ok(Command::Submit { change }),
            (Event::Abandon, Some(change), _, _) => Ok(Command::Abandon { change }),
            (Event::Stir, Some(w), _, _) => Ok(Command::Stir { w }),
            (Event::Look, Some(gateway), Some(setting), _) => Ok(Command::Look {
                gateway,
                setting,
            }),
            _ => Err(MissingField),
        }
    }
}

ghost use Rattle.std.specs.Prelude.{◌≡◌, ◌-◌, ◌^◌, ◌<◌, ◌≤◌, IfOk, IfSome};

use script::command::Command;
use script::event::Event;
use script::fault::RowFault;
use script::line::{End, Line};
use script::listing::{Listed, list_row};
use script::row::{is_header, parse_row};
use std::io;
use std::io::{Read, Write};

// Input that is read ahead into memory of its own: reading allocates nothing.
#[derive(Drop)]
struct Input<R> {
    source: R,
    bytes: [u8; 8192],
    at: usize,
    len: usize,
    ghost within: { len ≤ 8192 },
}

impl<R: Read> Input<R> {
    fn new(source: R) -> Input<R> {
        Input {
            source,
            bytes: [0; 8192],
            at: 0,
            len: 0,
        }
    }

    // Reads on where every byte that was read is consumed.
    fn fill(&mut self) -> io::Result<()> {
        if self.at >= self.len {
            self.len = self.source.read(&mut self.bytes)?;
            self.at = 0;
        }
        Ok(())
    }

    // The bytes that are read and not consumed.
    fn buffer(&self) -> &[u8] {
        if self.at >= self.len {
            return &[];
        }
        &self.bytes[self.at..self.len]
    }

    fn consume(&mut self, amount: usize) {
        self.at = self.at.saturating_add(amount);
    }
}

// Reads on to the end of the next line; what ended it, or none where the script has no line more.
fn next_line<R: Read>(source: &mut Input<R>, line: &mut Line) -> io::Result<Option<End>> {
    line.clear();
    for _ in 0..u64::MAX {
        source.fill()?;
        let bytes = source.buffer();
        if bytes.is_empty() {
            break;
        }
        let end = bytes.iter().position(|byte| *byte == b'\n');
        let len = end.unwrap_or(bytes.len());
        for byte in &bytes[..len] {
            line.push(*byte);
        }
        if end.is_some() {
            source.consume(len + 1);
            return Ok(Some(End::LineFeed));
        }
        source.consume(len);
    }
    if line.is_empty() {
        return Ok(None);
    }
    Ok(Some(End::Script))
}

// What a line of the script asks for.
fn read_command(line: &Line, end: End) -> Result<(Event, Command), RowFault> {
    let row = parse_row(line.row(end)?)?;
    Ok((row.event, Command::try_from(row)?))
}

// A script that is read, and the listing that is written: the line that was read last, and how many rows are read.
#[derive(Drop)]
pub(crate) struct Desk<R, W> {
    source: Input<R>,
    line: Line,
    row: u64,
    out: W,
}

impl<R: Read, W: Write> Desk<R, W> {
    pub(crate) fn new(source: R, out: W) -> Desk<R, W> {
        Desk {
            source: Input::new(source),
            line: Line::new(),
            row: 0,
            out,
        }
    }

    // Whether the script begins with its header.
    pub(crate) fn takes_header(&mut self) -> io::Result<bool> {
        let Some(end) = next_line(&mut self.source, &mut self.line)? else {
            return Ok(false);
        };
        Ok(self.line.row(end).is_ok_and(is_header))
    }

    // What the next row asks for, or its fault; none at the end of the script, or where no number is left for a row.
    fn next_row(&mut self) -> io::Result<Option<Result<(Event, Command), RowFault>>>
        ensures { IfOk result (λ row. IfSome row (λ _. 2 ^ 64 - self.new.row < 2 ^ 64 - self.old.row)) }
    {
        let Some(end) = next_line(&mut self.source, &mut self.line)? else {
            return Ok(None);
        };
        let Some(row) = self.row.checked_add(1) else {
            return Ok(None);
        };
        self.row = row;
        Ok(Some(read_command(&self.line, end)))
    }

    // The next command and its event; each row at fault before it is listed so. None at the end of the script.
    pub(crate) fn next_command(&mut self) -> io::Result<Option<(Event, Command)>>
        ensures { IfOk result (λ asked. IfSome asked (λ _. 2 ^ 64 - self.new.row < 2 ^ 64 - self.old.row)) }
    {
        while let Some(row) = self.next_row()? {
            match row {
                Ok(asked) => return Ok(Some(asked)),
                Err(fault) => self.list(Err(fault))?,
            }
        }
        Ok(None)
    }

    // Lists what came of the row that was read last.
    pub(crate) fn list(&mut self, listed: Listed) -> io::Result<()>
        ensures { self.new.row ≡ self.old.row }
    {
        let text = list_row(self.row, listed);
        self.out.write_all(text.as_slice())
    }

    // Writes out what is listed so far.
    pub(crate) fn flush(&mut self) -> io::Result<()> {
        self.out.flush()
    }
}

// The listing: one line for each row of a script.
ghost use Rattle.std.specs.Prelude.{◌≡◌};
ghost use Rattle.script.specs.Buffers.{held};
ghost use Rattle.script.specs.Listings.{listing_header, entry_of, Shows, row_text};

use crate::buffer::Buffer;
use crate::event::Event;
use crate::fault::RowFault;
use base::refusal::Refusal;

// What an event was answered: a value or none where it was served, or a refusal.
#[derive(Clone, Copy)]
pub struct Answered {
    pub event: Event,
    pub answer: Result<Option<i64>, Refusal>,
}

// What the listing says of a row: what its event was answered, or its fault.
pub type Listed = Result<Answered, RowFault>;

// A line of the listing, in 96 bytes: its five fields and its end never have as many.
pub type Text = Buffer<96>;

const HEADER: &[u8] = b"row,event,answer,value,outcome\r\n";

const LINE_END: &[u8] = b"\r\n";

// The fields of a line after the row's number.
#[derive(Clone, Copy)]
struct Entry {
    letter: u8,
    answer: u32,
    value: Option<i64>,
    outcome: &'static [u8],
}

// The first line of a listing.
pub fn listing_header() -> &'static [u8]
    ensures { result.now ≡ listing_header }
{
    HEADER
}

impl From<Listed> for Entry {
    ghost from_gives = { λ l e. Shows e (entry_of l) };

    fn from(listed: Listed) -> Entry {
        match listed {
            Ok(
                Answered {
                    event,
                    answer: Ok(value),
                },
            ) => Entry {
                letter: char::from(event) as u8,
                answer: 0,
                value,
                outcome: b"",
            },
            Ok(
                Answered {
                    event,
                    answer: Err(refusal),
                },
            ) => Entry {
                letter: char::from(event) as u8,
                answer: refusal.code(),
                value: None,
                outcome: b"",
            },
            Err(fault) => Entry {
                letter: b'?',
                answer: Refusal::Layout.code(),
                value: Some(i64::from(fault.field)),
                outcome: fault.cause.word(),
            },
        }
    }
}

// The line of a row.
pub fn list_row(row: u64, listed: Listed) -> Text
    ensures { held result ≡ row_text row listed }
{
    let entry = Entry::from(listed);
    let mut text = Text::new();
    text.extend_number(row);
    text.extend(&[b',', entry.letter, b',']);
    text.extend_number(entry.answer);
    text.extend(b",");
    text.extend_value(entry.value);
    text.extend(b",");
    text.extend(entry.outcome);
    text.extend(LINE_END);
    text
}

#[cfg(test)]
mod tests {
    use super::*;

    #[test]
    fn served_rows_have_a_value(rt: HostRuntime) {
        let text = list_row(
            4,
            Ok(Answered {
                event: Event::Submit,
                answer: Ok(Some(1)),
            }),
        );
        assert!(rt; text.as_slice() == b"4,C,0,1,\r\n".as_slice());
        let text = list_row(
            3,
            Ok(Answered {
                event: Event::Write,
                answer: Ok(None),
            }),
        );
        assert!(rt; text.as_slice() == b"3,W,0,,\r\n".as_slice());
    }

    #[test]
    fn long_numbers_fit(rt: HostRuntime) {
        let text = list_row(
            u64::MAX,
            Ok(Answered {
                event: Event::Look,
                answer: Ok(Some(i64::MIN)),
            }),
        );
        assert!(rt;
            text.as_slice() == b"18446744073709551615,P,0,-9223372036854775808,\r\n".as_slice()
        );
    }

    #[test]
    fn refusals_and_faults_have_numbers(rt: HostRuntime) {
        let text = list_row(
            7,
            Ok(Answered {
                event: Event::Read,
                answer: Err(Refusal::Overwritten),
            }),
        );
        assert!(rt; text.as_slice() == b"7,R,9,,\r\n".as_slice());
        let text = list_row(0, Err(RowFault::HEADER));
        assert!(rt; text.as_slice() == b"0,?,1,5,header\r\n".as_slice());
    }
}

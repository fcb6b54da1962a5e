// A row of a script: an event and its fields.
ghost use Rattle.std.specs.Prelude.{◌≡◌, List, ℕ, Result, Option, true, false, length, IfOk, Decides, MatchOption, ◌==◌, position};
ghost use Rattle.std.specs.Fn.{FnReturnsAt};
ghost use Rattle.std.specs.Option.{ok_or};
ghost use Rattle.script.specs.declared.fault.BadNumber.{BadNumber};
ghost use Rattle.script.specs.Rows.{script_header, is_comma, has_comma, before, after, shaped, read_event, to_read, value_if, by_cause, read_fields, read_row, filled_as, filled_as_its_layout_asks};

use crate::event::{Event, Filling};
use crate::fault::{BadLetter, BadNumber, Cause, FieldFault, RowFault};
use crate::number::{number, watts};

#[derive(Clone, Copy, PartialEq, Eq, Debug)]
pub struct Row {
    pub event: Event,
    pub a: Option<u32>,
    pub b: Option<u32>,
    pub c: Option<i32>,
}

// The longest line of a script, without its line end.
const LONGEST: usize = 64;

// Whether the field is to be read, as its filling says.
fn is_to_read<const F: u8>(s: &[u8], filling: Filling) -> Result<bool, FieldFault<F>>
    ensures { by_cause result ≡ to_read filling (length s.now == 0) }
{
    match (filling, s.is_empty()) {
        (Filling::Required, true) | (Filling::Empty, false) => {
            Err(FieldFault { cause: Cause::Fill })
        }
        (_, empty) => Ok(!empty),
    }
}

// The value of the field F, as its filling says; `read` reads its bytes.
fn field<T, const F: u8, R: Fn(&[u8]) -> Result<T, BadNumber>>(
    s: &[u8],
    filling: Filling,
    read: R,
) -> Result<Option<T>, FieldFault<F>>
    requires { R.IsAlwaysCallable read }
    ensures filled { IfOk result (filled_as filling) }
    ensures value { (said : Result T BadNumber) → ((answer : Result T BadNumber) → FnReturnsAt R.Fn read s.now answer → answer ≡ said) → by_cause result ≡ value_if (to_read filling (length s.now == 0)) said }
{
    if !is_to_read::<F>(s, filling)? {
        return Ok(None);
    }
    Ok(Some(read(s)?))
}

// The index of the first comma.
fn comma(s: &[u8]) -> Option<usize>
    ensures { result ≡ position is_comma s.now }
{
    s.iter().position(|b| *b == b',')
}

// The part before the first comma, and the part after it.
fn cut(s: &[u8]) -> Option<(&[u8], &[u8])>
    ensures { MatchOption result (has_comma s.now ≡ false) (λ p. (has_comma s.now ≡ true) × (p.0.now ≡ before s.now) × (p.1.now ≡ after s.now)) }
{
    let i = comma(s)?;
    Some((&s[..i], &s[i + 1..]))
}

// The four fields of a row, as its bytes: the event, a, b and c.
fn split_row(line: &[u8]) -> Option<(&[u8], &[u8], &[u8], &[u8])>
    ensures { MatchOption result (shaped line.now ≡ false) (λ f. (shaped line.now ≡ true) × (f.0.now ≡ before line.now) × (f.1.now ≡ before (after line.now)) × (f.2.now ≡ before (after (after line.now))) × (f.3.now ≡ after (after (after line.now)))) }
{
    if line.len() > LONGEST {
        return None;
    }
    let (event, rest) = cut(line)?;
    let (a, rest) = cut(rest)?;
    let (b, c) = cut(rest)?;
    if comma(c).is_some() {
        return None;
    }
    Some((event, a, b, c))
}

// The event of the first field.
fn event_field(s: &[u8]) -> Result<Event, BadLetter>
    ensures { result ≡ ok_or (read_event s.now) (record {}) }
{
    match s {
        [letter] => Event::try_from(char::from(*letter)),
        _ => Err(BadLetter),
    }
}

fn row_of(event: Event, a: &[u8], b: &[u8], c: &[u8]) -> Result<Row, RowFault>
    ensures value { result ≡ read_fields event a.now b.now c.now }
    ensures filled { IfOk result filled_as_its_layout_asks }
{
    let layout = event.layout();
    let a = field::<_, 2, _>(a, layout.a, number)?;
    let b = field::<_, 3, _>(b, layout.b, number)?;
    let c = field::<_, 4, _>(c, layout.c, watts)?;
    Ok(Row { event, a, b, c })
}

// What a line says, without its line end.
pub fn parse_row(line: &[u8]) -> Result<Row, RowFault>
    ensures value { result ≡ read_row line.now }
    ensures filled { IfOk result filled_as_its_layout_asks }
{
    let (event, a, b, c) = split_row(line).ok_or(RowFault::SHAPE)?;
    row_of(event_field(event)?, a, b, c)
}

// Whether the line is the first line of a script.
pub fn is_header(line: &[u8]) -> bool
    ensures { Decides result (line.now ≡ script_header) }
{
    line == b"event,a,b,c".as_slice()
}

#[cfg(test)]
mod tests {
    use super::*;

    #[test]
    fn rows_have_four_fields(rt: HostRuntime) {
        assert_eq!(rt;
            parse_row(b"W,0,7,-25"),
            Ok(Row {
                event: Event::Write,
                a: Some(0),
                b: Some(7),
                c: Some(-25),
            })
        );
        assert_eq!(rt; parse_row(b"O,0,"), Err(RowFault::SHAPE));
        assert_eq!(rt; parse_row(b"O,0,,,"), Err(RowFault::SHAPE));
    }

    #[test]
    fn faults_name_the_first_field(rt: HostRuntime) {
        assert_eq!(rt; parse_row(b"o,x,,"), Err(RowFault::LETTER));
        assert_eq!(rt;
            parse_row(b"O,,1,"),
            Err(RowFault {
                field: 2,
                cause: Cause::Fill,
            })
        );
        assert_eq!(rt;
            parse_row(b"O,0,x,"),
            Err(RowFault {
                field: 3,
                cause: Cause::Fill,
            })
        );
        assert_eq!(rt;
            parse_row(b"W,0,0,-0"),
            Err(RowFault {
                field: 4,
                cause: Cause::Number,
            })
        );
    }
}

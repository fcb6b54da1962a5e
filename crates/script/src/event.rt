// The events of a script: their letters, and the fields that each of them fills.
ghost use Rattle.std.specs.Prelude.{◌≡◌, ◌<◌, Some};
ghost use Rattle.std.specs.Option.{ok_or};
ghost use Rattle.script.specs.Events.{event_of, letter_of, layout_of};

use crate::fault::BadLetter;

#[derive(Clone, Copy, PartialEq, Eq, Debug)]
pub enum Event {
    Start,
    Open,
    Read,
    Write,
    Submit,
    Abandon,
    Stir,
    Look,
}

// What an event asks of one field.
#[derive(Clone, Copy)]
pub enum Filling {
    Required,
    Optional,
    Empty,
}

// What an event asks of its three fields.
#[derive(Clone, Copy)]
pub struct Layout {
    pub event: Event,
    pub a: Filling,
    pub b: Filling,
    pub c: Filling,
}

// One layout for each event, in the order of the events.
pub const LAYOUTS: [Layout; 8] = [
    Layout {
        event: Event::Start,
        a: Filling::Required,
        b: Filling::Required,
        c: Filling::Required,
    },
    Layout {
        event: Event::Open,
        a: Filling::Required,
        b: Filling::Empty,
        c: Filling::Empty,
    },
    Layout {
        event: Event::Read,
        a: Filling::Required,
        b: Filling::Required,
        c: Filling::Empty,
    },
    Layout {
        event: Event::Write,
        a: Filling::Required,
        b: Filling::Required,
        c: Filling::Required,
    },
    Layout {
        event: Event::Submit,
        a: Filling::Required,
        b: Filling::Empty,
        c: Filling::Empty,
    },
    Layout {
        event: Event::Abandon,
        a: Filling::Required,
        b: Filling::Empty,
        c: Filling::Empty,
    },
    Layout {
        event: Event::Stir,
        a: Filling::Required,
        b: Filling::Empty,
        c: Filling::Empty,
    },
    Layout {
        event: Event::Look,
        a: Filling::Required,
        b: Filling::Required,
        c: Filling::Empty,
    },
];

// The event that a letter stands for.
impl TryFrom<char> for Event {
    type Error = BadLetter;

    ghost try_from_gives = { λ c r. r ≡ ok_or (event_of c) (record {}) };

    fn try_from(letter: char) -> Result<Event, BadLetter> {
        match letter {
            'S' => Ok(Event::Start),
            'O' => Ok(Event::Open),
            'R' => Ok(Event::Read),
            'W' => Ok(Event::Write),
            'C' => Ok(Event::Submit),
            'A' => Ok(Event::Abandon),
            'T' => Ok(Event::Stir),
            'P' => Ok(Event::Look),
            _ => Err(BadLetter),
        }
    }
}

// The letter that stands for an event.
impl From<Event> for char {
    ghost from_gives = { λ e c. (c ≡ letter_of e) × (event_of c ≡ Some e) × (c < 128) };

    fn from(event: Event) -> char {
        match event {
            Event::Start => 'S',
            Event::Open => 'O',
            Event::Read => 'R',
            Event::Write => 'W',
            Event::Submit => 'C',
            Event::Abandon => 'A',
            Event::Stir => 'T',
            Event::Look => 'P',
        }
    }
}

impl Event {
    // What the event asks of its fields.
    pub fn layout(self) -> Layout
        ensures { result ≡ layout_of self }
    {
        LAYOUTS[self as usize]
    }
}

#[cfg(test)]
mod tests {
    use super::*;

    #[test]
    fn letters_stand_for_events(rt: HostRuntime) {
        assert_eq!(rt; Event::try_from('P'), Ok(Event::Look));
        assert_eq!(rt; Event::try_from('s'), Err(BadLetter));
    }
}

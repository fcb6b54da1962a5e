// Faults: in a number, in a field, in a line, in a row. `?` turns each into the next.
ghost use Rattle.std.specs.Prelude.{◌≡◌};
ghost use Rattle.script.specs.Listings.{cause_word};
ghost use Rattle.script.specs.declared.fault.Cause.TheVariants.{Shape, Letter, Number};

// Why a row is at fault.
#[derive(Clone, Copy, PartialEq, Eq, Debug)]
pub enum Cause {
    // The line is too long, or has not four fields.
    Shape,
    // The first field is not the letter of an event.
    Letter,
    // A required field is empty, or a field is filled that has to be empty.
    Fill,
    // A number is badly written or out of range.
    Number,
    // The first line is not the header.
    Header,
}

// The byte is not the letter of an event, or the field is not one byte.
#[derive(Clone, Copy, PartialEq, Eq, Debug)]
pub struct BadLetter;

// The bytes do not write a number of the field's range.
#[derive(Clone, Copy, PartialEq, Eq, Debug)]
pub struct BadNumber;

// A line has more than 64 bytes before its end.
#[derive(Clone, Copy, PartialEq, Eq, Debug)]
pub struct TooLong;

// A fault in the field F.
#[derive(Clone, Copy)]
pub struct FieldFault<const F: u8> {
    pub cause: Cause,
}

// A fault in a row: the number of the field, from 1, or 5 for the whole row, and the cause.
#[derive(Clone, Copy, PartialEq, Eq, Debug)]
pub struct RowFault {
    pub field: u8,
    pub cause: Cause,
}

impl Cause {
    // The word for the cause.
    pub fn word(self) -> &'static [u8]
        ensures { result.now ≡ cause_word self }
    {
        match self {
            Cause::Shape => b"shape",
            Cause::Letter => b"letter",
            Cause::Fill => b"fill",
            Cause::Number => b"number",
            Cause::Header => b"header",
        }
    }
}

impl RowFault {
    // Too long, or not four fields.
    pub const SHAPE: RowFault = RowFault {
        field: 5,
        cause: Cause::Shape,
    };

    // No event.
    pub const LETTER: RowFault = RowFault {
        field: 1,
        cause: Cause::Letter,
    };

    // A first line that is not the header.
    pub const HEADER: RowFault = RowFault {
        field: 5,
        cause: Cause::Header,
    };
}

impl<const F: u8> From<BadNumber> for FieldFault<F> {
    ghost from_gives = { λ _ t. t.cause ≡ Number };

    fn from(_fault: BadNumber) -> FieldFault<F> {
        FieldFault {
            cause: Cause::Number,
        }
    }
}

impl<const F: u8> From<FieldFault<F>> for RowFault {
    ghost from_gives = { λ e t. (t.field ≡ F) × (t.cause ≡ e.cause) };

    fn from(fault: FieldFault<F>) -> RowFault {
        RowFault {
            field: F,
            cause: fault.cause,
        }
    }
}

impl From<BadLetter> for RowFault {
    ghost from_gives = { λ _ t. (t.field ≡ 1) × (t.cause ≡ Letter) };

    fn from(_fault: BadLetter) -> RowFault {
        RowFault::LETTER
    }
}

impl From<TooLong> for RowFault {
    ghost from_gives = { λ _ t. (t.field ≡ 5) × (t.cause ≡ Shape) };

    fn from(_fault: TooLong) -> RowFault {
        RowFault::SHAPE
    }
}

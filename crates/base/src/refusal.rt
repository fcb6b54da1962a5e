ghost use Rattle.std.specs.Prelude.{◌≡◌};
ghost use Rattle.base.specs.Refusals.{number};

// Why a call is refused: a closed list of numbers, in the order in which the conditions are checked.
#[derive(Clone, Copy, PartialEq, Eq, Debug)]
pub enum Refusal {
    // A script row breaks the layout.
    Layout = 1,
    // A number is outside its limits, a table is too short, or a script event comes before the start or starts again.
    Limits = 2,
    // The carrier's count or its gateways are not the site's.
    Carrier = 3,
    UnknownGateway = 4,
    UnknownChange = 5,
    UnknownSetting = 6,
    // Every change number is used.
    NoChangeLeft = 7,
    // The change is not open.
    NotOpen = 8,
    // The home cell was written deeper than the opening point.
    Overwritten = 9,
    // One note or update too many.
    Full = 10,
    // The gateway leads.
    Leading = 11,
    // The message named for a leader's history is unknown, or its path lacks the gateway's last applied message.
    NoHistory = 12,
    // The gateway follows.
    NotLeading = 13,
    // The change is not submitted.
    NotSubmitted = 14,
    // The head's path has a message for the change.
    AlreadyDecided = 15,
    // The head's path lacks the change's opening point.
    OpeningMissing = 16,
    // Every message number is used.
    NoMessageLeft = 17,
}

impl Refusal {
    // The number that stands for the refusal, in listings and on displays.
    pub fn code(self) -> u32
        ensures { result ≡ number self }
    {
        self as u32
    }
}

use crate::records::Outcome;

// What certify answers: the number of the new message, and how it decides the change.
#[derive(Clone, Copy)]
pub struct Certified {
    pub number: u32,
    pub outcome: Outcome,
}

// What deliver answers; each but the first with the message's number.
#[derive(Clone, Copy)]
pub enum Delivery {
    // No message waits.
    Nothing,
    // The message's precedent is not the last applied one.
    Discard(u32),
    // Applied: its change's updates were put in.
    Commit(u32),
    // Applied: its change is aborted.
    Abort(u32),
    // Applied: its change is aborted, and this is the change's home.
    Restart(u32),
}

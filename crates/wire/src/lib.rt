// A carrier whose line one caller writes: each number that joins the line is named in a call of `stir`.
#![tactic(auto)]

mod calls;
mod limits;

use carrier::log::Log;
pub use limits::check;

// A stir appends to the log.
#[derive(Drop)]
pub struct Wire<'a> {
    log: Log<'a>,
}

// rehearse: performs a script of calls from standard input on a site of watts, and lists what each call answered.
#![tactic(auto)]

mod desk;
mod run;

use run::Broadcast;
use std::env;
use std::str::FromStr;
use thiserror::Error;

const HELP: &str =
    "rehearse: performs a script of calls on a site of watts and lists what each call answered

  rehearse < SCRIPT          over the wire, the carrier that one hand writes
  rehearse votes < SCRIPT    over a vote table with 64 slots
  rehearse --help            this text

The script has rows under the header event,a,b,c; the listing goes to standard output.
Letters and their fields:
  S gateways,settings,watts    starts the site
  O gateway                    opens a change; answers its number
  R change,setting             reads in a change
  W change,setting,watts       writes in a change
  C change                     submits a change; answers how many updates are left
  A change                     abandons a change
  T number                     stirs the carrier; answers how many numbers joined its line
  P gateway,setting            looks at a gateway's value
";

// What the program is asked to do.
enum Request {
    Help,
    Rehearse(Broadcast),
}

// The program is asked for something else.
#[derive(Debug, Drop, Error)]
#[error("rehearse takes no word, or votes, or --help")]
struct UnknownRequest;

impl FromStr for Request {
    type Err = UnknownRequest;

    fn from_str(word: &str) -> Result<Request, UnknownRequest> {
        match word {
            "--help" => Ok(Request::Help),
            "votes" => Ok(Request::Rehearse(Broadcast::Votes)),
            _ => Err(UnknownRequest),
        }
    }
}

// What the arguments ask for: at most one word.
fn read_args(rt: &HostRuntime) -> anyhow::Result<Request> {
    let mut words = env::args(rt)?.skip(1);
    match (words.next(), words.next()) {
        (None, _) => Ok(Request::Rehearse(Broadcast::Wire)),
        (Some(word), None) => Ok(word.parse()?),
        (Some(_), Some(_)) => Err(UnknownRequest.into()),
    }
}

fn main(rt: HostRuntime) -> anyhow::Result<()> {
    match read_args(&rt)? {
        Request::Help => rt.print(HELP)?,
        Request::Rehearse(broadcast) => run::rehearse(&rt, broadcast)?,
    }
    Ok(())
}

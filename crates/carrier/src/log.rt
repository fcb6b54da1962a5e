// The log: what every carrier keeps whose line lies in lent memory.
ghost use Rattle.std.specs.Prelude.{◌≡◌, ◌≤◌, length};
ghost use Rattle.base.specs.Bounded.{listed};
ghost use Rattle.carrier.specs.Lines.{numbers, AllBelow, NoneAbove};

use crate::limits::check;
use crate::line::Line;
use base::bounded::Bounded;

// How many numbers were given, the line, and a place in it for each gateway: the gateway g has taken the first `places[g]`
// numbers of the line.
#[derive(Drop)]
pub struct Log<'a> {
    capacity: u32,
    count: u32,
    places: Bounded<u16, 8>,
    line: Line<'a>,
    ghost few_gateways: { length (listed places) ≤ 8 },
    ghost numbers_fit: { capacity ≤ 1024 },
    ghost limit_fits: { length line.memory.now ≤ 2048 },
    ghost count_within_capacity: { count ≤ capacity },
    ghost line_within_memory: { line.len ≤ length line.memory.now },
    ghost line_below_count: { AllBelow count (numbers line) },
    ghost places_within_line: { NoneAbove line.len (listed places) },
}

impl<'a> Log<'a> {
    ghost use Rattle.carrier.specs.Meaning.{offered, after_offer, taken, after_take, Stirred};
    ghost use Rattle.carrier.specs.Logs.{log_meaning, log_limit, at_start, new_log, new_limit, joined, after_append};

    // A log over the memory; from numbers that `check` refuses, one with no gateways, no numbers to give and no memory.
    pub fn new(gateways: u32, capacity: u32, memory: &'a mut [u16]) -> Log<'a>
        ensures meaning { log_meaning result ≡ new_log gateways capacity (length memory.old) }
        ensures limit { log_limit result ≡ new_limit gateways capacity (length memory.old) }
    {
        match check(gateways, capacity, memory.len()) {
            Ok(()) => Log::empty(gateways, capacity, memory),
            Err(_) => Log::empty(0, 0, &mut memory[..0]),
        }
    }

    // A log over the memory with nothing given and nothing in its line.
    fn empty(gateways: u32, capacity: u32, memory: &'a mut [u16]) -> Log<'a>
        requires gateways { gateways ≤ 8 }
        requires capacity { capacity ≤ 1024 }
        requires limit { length memory.old ≤ 2048 }
        ensures meaning { log_meaning result ≡ at_start gateways capacity }
        ensures limit { log_limit result ≡ length memory.old }
    {
        Log {
            capacity,
            count: 0,
            places: Bounded::filled(0, gateways as usize),
            line: Line { len: 0, memory },
        }
    }

    // How many gateways it serves.
    pub fn gateways(&self) -> u32
        ensures answer { result ≡ (log_meaning self.now).gateways }
        ensures few { result ≤ 8 }
    {
        self.places.len() as u32
    }

    // How many numbers it can give in all.
    pub fn capacity(&self) -> u32
        ensures { result ≡ (log_meaning self.now).capacity }
    {
        self.capacity
    }

    // How many numbers it has given.
    pub fn count(&self) -> u32
        ensures { result ≡ (log_meaning self.now).count }
    {
        self.count
    }

    // How many numbers are in its line.
    pub fn len(&self) -> u32
        ensures { result ≡ length (log_meaning self.now).line }
    {
        self.line.len as u32
    }

    // How many numbers its line can hold.
    pub fn limit(&self) -> u32
        ensures { result ≡ log_limit self.now }
    {
        self.line.memory.len() as u32
    }

    // The next number; none exactly when the count equals the capacity.
    pub fn offer(&mut self) -> Option<u32>
        ensures answer { result ≡ offered (log_meaning self.old) }
        ensures after { log_meaning self.new ≡ after_offer (log_meaning self.old) }
        ensures limit { log_limit self.new ≡ log_limit self.old }
    {
        let n = self.count;
        if n < self.capacity {
            self.count = n + 1;
            Some(n)
        } else {
            None
        }
    }

    // Puts w at the line's end, if it is a number given and the line is below its limit; how many numbers joined.
    pub fn append(&mut self, w: u32) -> u32
        ensures answer { result ≡ joined (log_limit self.old) w (log_meaning self.old) }
        ensures after { log_meaning self.new ≡ after_append (log_limit self.old) w (log_meaning self.old) }
        ensures limit { log_limit self.new ≡ log_limit self.old }
        ensures stirred { Stirred (log_meaning self.old) (log_meaning self.new) result }
    {
        if w < self.count && self.line.len < self.line.memory.len() {
            self.line.push(w as u16);
            1
        } else {
            0
        }
    }

    // The number at the gateway's place, which moves on by 1; none exactly when the place is the line's end or the log
    // has no such gateway.
    #[tactic(auto, using(crate::proofs::LogLaws::log_steps))]
    pub fn take(&mut self, gateway: u32) -> Option<u32>
        ensures answer { result ≡ taken (log_meaning self.old) gateway }
        ensures after { log_meaning self.new ≡ after_take (log_meaning self.old) gateway }
        ensures limit { log_limit self.new ≡ log_limit self.old }
    {
        let g = gateway as usize;
        let place = *self.places.get(g)?;
        if usize::from(place) >= self.line.len {
            return None;
        }
        self.places.set(g, place + 1);
        Some(u32::from(self.line.memory[usize::from(place)]))
    }
}

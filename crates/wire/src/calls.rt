ghost use Rattle.std.specs.Prelude.{◌≡◌, length};
ghost use Rattle.carrier.specs.Meaning.{offered, after_offer, taken, after_take, Stirred};
ghost use Rattle.carrier.specs.Logs.{joined, after_append};
ghost use Rattle.carrier.specs.Soundness.{log_sound};
ghost use Rattle.wire.specs.Wires.{wire_meaning, line_limit, made, made_limit};

use crate::Wire;
use crate::limits::check;
use carrier::Carrier;
use carrier::log::Log;

impl<'a> Wire<'a> {
    // A wire over the memory; from numbers that `check` refuses, one with no gateways and no numbers to give.
    pub fn new(gateways: u32, capacity: u32, limit: u32, memory: &'a mut [u16]) -> Wire<'a>
        ensures meaning { wire_meaning result ≡ made gateways capacity limit (length memory.old) }
        ensures limit { line_limit result ≡ made_limit gateways capacity limit (length memory.old) }
    {
        // Over no memory a log has no gateways and no numbers to give either.
        let room = match check(gateways, capacity, limit, memory) {
            Ok(()) => limit as usize,
            Err(_) => 0,
        };
        Wire {
            log: Log::new(gateways, capacity, &mut memory[..room]),
        }
    }

    // How many numbers the line can hold.
    pub fn limit(&self) -> u32
        ensures { result ≡ line_limit self.now }
    {
        self.log.limit()
    }
}

impl<'a> Carrier for Wire<'a> {
    ghost meaning = { wire_meaning };

    ghost sound = { λ w. log_sound w.log };

    fn gateways(&self) -> u32 {
        self.log.gateways()
    }

    fn capacity(&self) -> u32 {
        self.log.capacity()
    }

    fn count(&self) -> u32 {
        self.log.count()
    }

    fn offer(&mut self) -> Option<u32>
        ensures answer { result ≡ offered (wire_meaning self.old) }
        ensures after { wire_meaning self.new ≡ after_offer (wire_meaning self.old) }
        ensures limit { line_limit self.new ≡ line_limit self.old }
    {
        self.log.offer()
    }

    // Appends w to the line, if it is a number given and the line is below its limit.
    fn stir(&mut self, w: u32) -> u32
        ensures carrier { Stirred (wire_meaning self.old) (wire_meaning self.new) result }
        ensures answer { result ≡ joined (line_limit self.old) w (wire_meaning self.old) }
        ensures after { wire_meaning self.new ≡ after_append (line_limit self.old) w (wire_meaning self.old) }
        ensures limit { line_limit self.new ≡ line_limit self.old }
    {
        self.log.append(w)
    }

    fn take(&mut self, gateway: u32) -> Option<u32>
        ensures answer { result ≡ taken (wire_meaning self.old) gateway }
        ensures after { wire_meaning self.new ≡ after_take (wire_meaning self.old) gateway }
        ensures limit { line_limit self.new ≡ line_limit self.old }
    {
        self.log.take(gateway)
    }
}

#[cfg(test)]
mod tests {
    use super::*;

    #[test]
    fn the_line_takes_no_more_than_its_limit(rt: HostRuntime) {
        let mut memory = [0; 4];
        let mut wire = Wire::new(1, 2, 3, &mut memory);
        assert_eq!(rt; wire.limit(), 3);
        assert_eq!(rt; wire.stir(0), 0);
        assert_eq!(rt; wire.offer(), Some(0));
        for (w, joined) in [(1, 0), (0, 1), (0, 1), (0, 1), (0, 0)] {
            assert_eq!(rt; wire.stir(w), joined);
        }
    }

    #[test]
    fn each_gateway_takes_the_line_in_order(rt: HostRuntime) {
        let mut memory = [0; 4];
        let mut wire = Wire::new(2, 2, 4, &mut memory);
        for number in [Some(0), Some(1), None] {
            assert_eq!(rt; wire.offer(), number);
        }
        assert_eq!(rt; wire.take(0), None);
        assert_eq!(rt; wire.stir(1), 1);
        assert_eq!(rt; wire.stir(0), 1);
        for (gateway, number) in [
            (0, Some(1)),
            (0, Some(0)),
            (0, None),
            (1, Some(1)),
            (2, None),
        ] {
            assert_eq!(rt; wire.take(gateway), number);
        }
    }

    #[test]
    fn refused_numbers_make_an_idle_wire(rt: HostRuntime) {
        let mut memory = [0; 4];
        let mut wire = Wire::new(9, 2, 3, &mut memory);
        assert_eq!(rt; wire.gateways(), 0);
        assert_eq!(rt; wire.capacity(), 0);
        assert_eq!(rt; wire.limit(), 0);
        assert_eq!(rt; wire.offer(), None);
        assert_eq!(rt; wire.count(), 0);
    }
}

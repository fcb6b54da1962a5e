// The carrier: the total order broadcast below a site.
#![tactic(auto)]

ghost use Rattle.std.specs.Prelude.{◌≡◌};
ghost use Rattle.carrier.specs.Meaning.{Meaning, Sound, Stirred, offered, after_offer, taken, after_take};

pub mod limits;
mod line;
pub mod log;

// A carrier gives each offered message a number, puts numbers into one line in an order of its own, and hands the line to
// each gateway from its start. What it means is its ghost members; whatever stands above it knows no more than that.
pub trait Carrier {
    // What the carrier holds, in the words of the broadcast.
    ghost meaning: { Self → Meaning };

    // How many gateways it serves.
    fn gateways(&self) -> u32
        ensures { result ≡ (meaning self.now).gateways };

    // How many numbers it can give in all.
    fn capacity(&self) -> u32
        ensures { result ≡ (meaning self.now).capacity };

    // How many numbers it has given.
    fn count(&self) -> u32
        ensures { result ≡ (meaning self.now).count };

    // The next number; none exactly when the count equals the capacity.
    fn offer(&mut self) -> Option<u32>
        ensures answer { result ≡ offered (meaning self.old) }
        ensures after { meaning self.new ≡ after_offer (meaning self.old) };

    // May lengthen the line at its end; how many numbers joined. What joins, and what `w` says, is the carrier's own.
    fn stir(&mut self, w: u32) -> u32
        ensures { Stirred (meaning self.old) (meaning self.new) result };

    // The number at the gateway's place, which moves on by 1; none exactly when the place is the line's end or the
    // carrier has no such gateway.
    fn take(&mut self, gateway: u32) -> Option<u32>
        ensures answer { result ≡ taken (meaning self.old) gateway }
        ensures after { meaning self.new ≡ after_take (meaning self.old) gateway };

    // Every number in the line is below the count, and no place passes the line's end.
    ghost sound: { (x : Self) → Sound (meaning x) };
}

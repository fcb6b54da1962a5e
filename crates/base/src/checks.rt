// Conditions that refuse numbers outside their limits, and tables that are too short.
ghost use Rattle.std.specs.Prelude.{◌≡◌, ◌≤◌, [], ◌∷◌, nat_lt, OnOk};
ghost use Rattle.base.specs.Limits.{outside};
ghost use Rattle.base.specs.Refusals.{answered, first};
ghost use Rattle.base.specs.declared.refusal.Refusal.TheVariants.{Limits};

use crate::refusal::Refusal;

// Whether n is one of low to high.
pub fn check_within(low: usize, high: usize, n: usize) -> Result<(), Refusal>
    ensures answer { result ≡ answered (first ((outside low high n, Limits) ∷ [])) tt }
    ensures fine { OnOk result ((low ≤ n) × (n ≤ high)) }
{
    if !(low..=high).contains(&n) {
        return Err(Refusal::Limits);
    }
    Ok(())
}

// Whether a table of this length has room for so many elements.
pub fn check_room(len: usize, needed: usize) -> Result<(), Refusal>
    ensures answer { result ≡ answered (first ((nat_lt len needed, Limits) ∷ [])) tt }
    ensures fine { OnOk result (needed ≤ len) }
{
    if len < needed {
        return Err(Refusal::Limits);
    }
    Ok(())
}

ghost use Rattle.std.specs.Prelude.{◌≡◌};
ghost use Rattle.base.specs.Refusals.{answered};
ghost use Rattle.carrier.specs.Limits.{log_refused};

use base::checks::check_within;
use base::refusal::Refusal;

// Whether a log can be made from these numbers: it serves 1 to 8 gateways, gives 1 to 1,024 numbers, and keeps a line of
// 1 to 2,048 numbers.
pub fn check(gateways: u32, capacity: u32, limit: usize) -> Result<(), Refusal>
    ensures { result ≡ answered (log_refused gateways capacity limit) tt }
{
    check_within(1, 8, gateways as usize)?;
    check_within(1, 1024, capacity as usize)?;
    check_within(1, 2048, limit)
}

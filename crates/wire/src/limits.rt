ghost use Rattle.std.specs.Prelude.{◌≡◌, length};
ghost use Rattle.base.specs.Refusals.{answered};
ghost use Rattle.wire.specs.Limits.{wire_refused};

use base::checks::check_room;
use base::refusal::Refusal;
use carrier::limits;

// Whether a wire can be made from these numbers: it serves 1 to 8 gateways, gives 1 to 1,024 numbers, and keeps a line of
// 1 to 2,048 numbers, which the memory has room for.
pub fn check(gateways: u32, capacity: u32, limit: u32, memory: &[u16]) -> Result<(), Refusal>
    ensures { result ≡ answered (wire_refused gateways capacity limit (length memory.now)) tt }
{
    limits::check(gateways, capacity, limit as usize)?;
    check_room(memory.len(), limit as usize)
}

#[cfg(test)]
mod tests {
    use super::check;
    use base::refusal::Refusal;

    const REFUSED: Result<(), Refusal> = Err(Refusal::Limits);

    #[test]
    fn one_to_eight_gateways(rt: HostRuntime) {
        let memory = [0; 2];
        for (gateways, answer) in [(0, REFUSED), (1, Ok(())), (8, Ok(())), (9, REFUSED)] {
            assert_eq!(rt; check(gateways, 5, 2, &memory), answer);
        }
    }

    #[test]
    fn a_capacity_of_1_to_1024(rt: HostRuntime) {
        let memory = [0; 2];
        for (capacity, answer) in [(0, REFUSED), (1, Ok(())), (1024, Ok(())), (1025, REFUSED)] {
            assert_eq!(rt; check(3, capacity, 2, &memory), answer);
        }
    }

    #[test]
    fn a_line_of_1_to_2048(rt: HostRuntime) {
        let memory = [0; 2049];
        for (limit, answer) in [(0, REFUSED), (1, Ok(())), (2048, Ok(())), (2049, REFUSED)] {
            assert_eq!(rt; check(3, 5, limit, &memory), answer);
        }
    }

    #[test]
    fn memory_for_the_line(rt: HostRuntime) {
        let memory = [0; 2];
        for (limit, answer) in [(2, Ok(())), (3, REFUSED)] {
            assert_eq!(rt; check(3, 5, limit, &memory), answer);
        }
    }
}

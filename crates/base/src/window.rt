ghost use Rattle.std.specs.Prelude.{◌&&◌, ◌==◌};
ghost use Rattle.base.specs.Values.{equal};
ghost use Rattle.std.proofs.Common.{rules};

use crate::value::Value;

// When to charge: a start minute, an end minute and a number of watts. The minutes are not checked.
#[derive(Clone, Copy, PartialEq, Eq, Debug)]
pub struct ChargeWindow {
    pub start: u16,
    pub end: u16,
    pub watts: i32,
}

impl Value for ChargeWindow {
    ghost alike = { λ a b. (a.start == b.start) && (a.end == b.end && equal a.watts b.watts) };

    ghost exact = { Prim.search rules };

    fn same(&self, other: &ChargeWindow) -> bool {
        self == other
    }
}

#[cfg(test)]
mod tests {
    use super::*;

    #[test]
    fn each_field_is_compared(rt: HostRuntime) {
        let a = ChargeWindow {
            start: 60,
            end: 120,
            watts: -500,
        };
        assert!(rt; a.same(&a));
        assert!(rt; !a.same(&ChargeWindow { start: 61, ..a }));
        assert!(rt; !a.same(&ChargeWindow { end: 121, ..a }));
        assert!(rt; !a.same(&ChargeWindow { watts: 500, ..a }));
    }
}

ghost use Rattle.base.specs.Values.{equal};
ghost use Rattle.std.proofs.Common.{rules};

use crate::value::Value;

// A number of watts.
#[derive(Clone, Copy, PartialEq, Eq, Debug)]
pub struct Watts(pub i32);

impl Value for Watts {
    ghost alike = { λ a b. equal a.0 b.0 };

    ghost exact = { Prim.search rules };

    fn same(&self, other: &Watts) -> bool {
        self == other
    }
}

#[cfg(test)]
mod tests {
    use super::*;

    #[test]
    fn only_equal_watts_are_same(rt: HostRuntime) {
        assert!(rt; Watts(-1).same(&Watts(-1)));
        assert!(rt; !Watts(-1).same(&Watts(1)));
        assert!(rt; !Watts(i32::MIN).same(&Watts(i32::MAX)));
    }
}

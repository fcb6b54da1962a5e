ghost use Rattle.std.specs.Prelude.{not, is_some};
ghost use Rattle.base.specs.Lists.{found};

use super::*;

#[test]
fn finds_the_first_in_the_list(rt: HostRuntime) {
    let mem: [u16; 4] = [7, 5, 5, 9];
    assert_eq!(rt; find(&mem, 4, 5), Some(1));
    assert_eq!(rt; find(&mem, 4, 9), Some(3));
    assert_eq!(rt; find(&mem, 3, 9), None);
    assert_eq!(rt; find(&mem, usize::MAX, 9), Some(3));
}

#[test]
fn appends_while_there_is_room(rt: HostRuntime) {
    let mut mem: [u16; 2] = [7, 0];
    assert_eq!(rt; append(&mut mem, 1, 8), Some(2));
    assert_eq!(rt; append(&mut mem, 2, 9), None);
    assert_eq!(rt; mem, [7, 8]);
}

#[test]
fn replaces_only_in_the_list(rt: HostRuntime) {
    let mut mem: [u16; 3] = [7, 8, 9];
    assert!(rt; replace(&mut mem, 2, 1, 1));
    assert!(rt; !replace(&mut mem, 2, 2, 1));
    assert!(rt; !replace(&mut mem, 4, 3, 1));
    assert_eq!(rt; mem, [7, 1, 9]);
}

#[test]
fn puts_by_key(rt: HostRuntime) {
    let mut mem: [u16; 2] = [7, 0];
    assert_eq!(rt; put(&mut mem, 1, 8), Some(2));
    assert_eq!(rt; put(&mut mem, 2, 7), Some(2));
    assert_eq!(rt; put(&mut mem, 2, 9), None);
    assert_eq!(rt; put(&mut mem, 5, 8), Some(2));
    assert_eq!(rt; mem, [7, 8]);
}

// Passes what has no key of the lent elements.
#[derive(Drop)]
struct Unlisted<'a, N> {
    others: &'a [N],
}

impl<'a, T: Copy + Keyed, N: Copy + Keyed> Filter<T> for Unlisted<'a, N> {
    ghost passes = { λ f x. not (is_some (found N.Keyed.key (T.Keyed.key x) f.others.now)) };

    fn pass(&self, x: &T) -> bool {
        find(self.others, self.others.len(), x.key()).is_none()
    }
}

#[test]
fn retains_what_passes(rt: HostRuntime) {
    let mut mem: [u16; 5] = [1, 2, 3, 4, 2];
    let others: [u16; 2] = [2, 3];
    let filter = Unlisted { others: &others };
    assert_eq!(rt; retain(&mut mem, 4, &filter), 2);
    assert_eq!(rt; mem[0], 1);
    assert_eq!(rt; mem[1], 4);
    assert_eq!(rt; mem[4], 2);
}

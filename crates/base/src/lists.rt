// The bounded list: functions over lent memory and a count. The list is the first `count` elements of the memory, or all
// of it where the count is larger; behind the list the memory may hold anything.
ghost use Rattle.std.specs.Prelude.{◌≡◌, ◌≤◌, ℕ, Bool, length, take, drop, Some, filter as kept_by, MatchOption};
ghost use Rattle.base.specs.Lists.{found, appended, after_append, has_element, after_replace, Written, Put};

// What has a number by which a list finds it.
pub trait Keyed {
    ghost key: { Self → ℕ };

    fn key(&self) -> u32
        ensures { result ≡ key self.now };
}

// A number is its own key.
impl Keyed for u16 {
    ghost key = { λ n. n };

    fn key(&self) -> u32 {
        u32::from(*self)
    }
}

// Which elements of a list stay in it. A trait, since a closure that is handed in would have to be asked whether it can be
// called.
pub trait Filter<T> {
    ghost passes: { Self → T → Bool };

    fn pass(&self, x: &T) -> bool
        ensures { result ≡ passes self.now x.now };
}

// The place of the first element with the key, of all.
fn first_place<T: Copy + Keyed>(list: &[T], key: u32) -> Option<usize>
    ensures { result ≡ found T.Keyed.key key list.now }
{
    list.iter().position(|x| x.key() == key)
}

// The place of the first element with the key.
#[tactic(auto, using(crate::proofs::ListLaws::front))]
pub fn find<T: Copy + Keyed>(mem: &[T], count: usize, key: u32) -> Option<usize>
    ensures { result ≡ found T.Keyed.key key (take count mem.now) }
{
    first_place(&mem[..count.min(mem.len())], key)
}

// Puts x behind the list and answers the new count; none, and nothing altered, where the memory is full.
pub fn append<T: Copy>(mem: &mut [T], count: usize, x: T) -> Option<usize>
    ensures answer { result ≡ appended mem.old count }
    ensures after { mem.new ≡ after_append mem.old count x }
{
    if count < mem.len() {
        mem[count] = x;
        Some(count + 1)
    } else {
        None
    }
}

// Puts x in the place of the list's element `at`; false, and nothing altered, where the list has none.
pub fn replace<T: Copy>(mem: &mut [T], count: usize, at: usize, x: T) -> bool
    ensures answer { result ≡ has_element mem.old count at }
    ensures after { mem.new ≡ after_replace mem.old count at x }
{
    if at < count && at < mem.len() {
        mem[at] = x;
        true
    } else {
        false
    }
}

// Puts x in the place of the element with its key, or behind the list, and answers the new count; none, and nothing
// altered, where the memory is full.
pub fn put<T: Copy + Keyed>(mem: &mut [T], count: usize, x: T) -> Option<usize>
    ensures { Put T.Keyed.key x mem.old count mem.new result }
{
    let end = count.min(mem.len());
    let at = find(mem, end, x.key());
    write(mem, end, at, x)
}

// Puts x in the place of the list's element `at`, or behind the list where that is none; answers the new count.
fn write<T: Copy>(mem: &mut [T], count: usize, at: Option<usize>, x: T) -> Option<usize>
    ensures { MatchOption at (Written (appended mem.old count) (after_append mem.old count x) mem.new result) (λ i. Written (Some count) (after_replace mem.old count i x) mem.new result) }
{
    match at {
        Some(i) => {
            replace(mem, count, i, x);
            Some(count)
        }
        None => append(mem, count, x),
    }
}

// Drops, keeping order, each element that does not pass the filter; answers how many are left.
pub fn retain<T: Copy, F: Filter<T>>(mem: &mut [T], count: usize, filter: &F) -> usize
    ensures list { take result mem.new ≡ kept_by (F.Filter.passes filter.now) (take count mem.old) }
    ensures counted { result ≡ length (kept_by (F.Filter.passes filter.now) (take count mem.old)) }
    ensures rest { drop count mem.new ≡ drop count mem.old }
    ensures fewer { result ≤ count }
{
    let end = count.min(mem.len());
    let mut n = 0;
    for i in 0..end {
        let x = mem[i];
        if filter.pass(&x) {
            mem[n] = x;
            n += 1;
        }
    }
    n
}

#[cfg(test)]
mod tests;

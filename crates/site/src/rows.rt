// Rows of the lent tables.
ghost use Rattle.std.specs.Prelude.{◌≡◌, ◌+◌, ◌*◌, ◌≤◌, length, take};
ghost use Rattle.site.specs.Tables.{row};

// The first `count` elements of row `k` of a table whose rows have `W` elements.
pub(crate) fn front_of_row<T, const W: usize>(table: &[T], k: usize, count: usize) -> &[T]
    requires fits { W * k + W ≤ length table.now }
    requires within { count ≤ W }
    ensures { result.now ≡ take count (row W k table.now) }
{
    let start = W * k;
    &table[start..start + count]
}

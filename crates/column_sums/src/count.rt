ghost use Rattle.std.specs.Prelude.{◌≡◌};
ghost use Rattle.column_sums.specs.Counts.{column_count};

use columns::{Column, Stretches};

// The number of valid entries of the column, NaNs among them.
// Tried: `map` with `sum`, and `fold`. They ask that each run of the iterator fits, which std tells of the items of a known
// list, and a column gives its stretches one by one. So here is a loop with an invariant.
pub fn count_column<C: Column>(column: &C) -> u64
    ensures { result ≡ column_count (C.Column.meaning column.now) }
{
    let mut total = 0;
    for stretch in Stretches::new(column) {
        total += stretch.end - stretch.start;
    }
    total
}

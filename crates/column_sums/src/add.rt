ghost use Rattle.std.specs.Prelude.{◌≡◌};
ghost use Rattle.column_sums.specs.ColumnSums.{column_sum};
ghost use Rattle.column_sums.specs.ColumnTotals.{ColumnTotal};

use columns::{Column, Stretches};
use sums::SumState;

// The column added to a state, stretch after stretch. The first overflow ends the batch, and none is the answer. That a loop
// is left by a label at the first overflow is a rule for sums.
pub fn add_column<C: Column>(column: &C, skip_nans: bool, state: SumState) -> Option<SumState>
    ensures steps { result ≡ column_sum (C.Column.meaning column.now) skip_nans state }
    ensures exact { ColumnTotal (C.Column.meaning column.now) state result }
{
    let mut total = state;
    'batch: {
        for stretch in Stretches::new(column) {
            let Some(sum) = column.add_stretch(stretch.start, skip_nans, total) else {
                break 'batch None;
            };
            total = sum;
        }
        Some(total)
    }
}

ghost use Rattle.std.specs.Prelude.{◌≡◌};
ghost use Rattle.columns.specs.Columns.{Meaning, Proper, valid, entry_at, constant_of, stretch_sum};
ghost use Rattle.columns.specs.Stretches.{NextStretch};

use crate::bitmap::Stretch;
use dtype::{DType, Value};
use sums::SumState;

// A kind of column, known by its meaning alone: dtype, length, entries, and whether it is constant.
pub trait Column {
    ghost meaning: { Self → Meaning };

    // Entries are of the dtype, and a constant's are all the same.
    ghost proper: { (s : Self) → Proper (meaning s) };

    fn dtype(&self) -> DType
        ensures { result ≡ (meaning self.now).dtype };

    fn len(&self) -> u64
        ensures { result ≡ (meaning self.now).len };

    // What a constant column holds, null or a value; none where the column is not constant.
    fn constant(&self) -> Option<Option<Value>>
        ensures { result ≡ constant_of (meaning self.now) };

    // The entry at i, null or a value; none past the end.
    fn entry(&self, i: u64) -> Option<Option<Value>>
        ensures { result ≡ entry_at (meaning self.now) i };

    // The first stretch that starts at `from` or later.
    fn next_stretch(&self, from: u64) -> Option<Stretch>
        ensures { NextStretch (valid (meaning self.now)) (meaning self.now).len from result };

    // The stretch that starts at `at` added to a state, and the state itself where none starts. None is an overflow. It takes
    // `at` alone, so that it answers for any number, and its promise is by `at`.
    fn add_stretch(&self, at: u64, skip_nans: bool, state: SumState) -> Option<SumState>
        ensures { result ≡ stretch_sum (meaning self.now) skip_nans at state };
}

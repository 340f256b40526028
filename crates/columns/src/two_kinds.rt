ghost use Rattle.either.specs.Either.{either};
ghost use Rattle.columns.specs.Eithers.{either_proper};

use crate::bitmap::Stretch;
use crate::column::Column;
use dtype::{DType, Value};
use either::{Either, for_both};
use sums::SumState;

// A column of one of two kinds, so that one list can mix any kinds.
impl<L: Column, R: Column> Column for Either<L, R> {
    ghost meaning = { either L.Column.meaning R.Column.meaning };

    ghost proper = { either_proper L.Column.meaning R.Column.meaning L.Column.proper R.Column.proper };

    fn dtype(&self) -> DType {
        for_both!(self, column => column.dtype())
    }

    fn len(&self) -> u64 {
        for_both!(self, column => column.len())
    }

    fn constant(&self) -> Option<Option<Value>> {
        for_both!(self, column => column.constant())
    }

    fn entry(&self, i: u64) -> Option<Option<Value>> {
        for_both!(self, column => column.entry(i))
    }

    fn next_stretch(&self, from: u64) -> Option<Stretch> {
        for_both!(self, column => column.next_stretch(from))
    }

    fn add_stretch(&self, at: u64, skip_nans: bool, state: SumState) -> Option<SumState> {
        for_both!(self, column => column.add_stretch(at, skip_nans, state))
    }
}

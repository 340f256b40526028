ghost use Rattle.std.specs.Prelude.{◌≡◌};
ghost use Rattle.columns.specs.Constants.{constant_meaning, constant_proper};
ghost use Rattle.columns.specs.States.{times_added};

use crate::bitmap::Stretch;
use crate::column::Column;
use dtype::{DType, Family, Scalar, Value};
use std::num::nearest_u64_to_f64;
use sums::{
    SumState, checked_add_i64, checked_add_u64, checked_mul_i64, checked_mul_u64, float_from_bits,
    float_to_bits,
};

// One scalar, as often as `len` says.
#[derive(Clone, Copy, PartialEq, Debug)]
pub struct Constant {
    pub scalar: Scalar,
    pub len: u64,
}

// One value n times, as one step. For floats the count is rounded once, the product once and the sum once. A state of
// another family than the value's does not arise.
fn add_times(
    family: Family,
    value: Value,
    n: u64,
    state: SumState,
    skip_nans: bool,
) -> Option<SumState>
    ensures { result ≡ times_added family skip_nans value n state }
{
    match (family, state) {
        (Family::Unsigned, SumState::Unsigned(acc)) => {
            let product = checked_mul_u64(value.to_u64(), n)?;
            checked_add_u64(acc, product).map(SumState::Unsigned)
        }
        (Family::Signed, SumState::Signed(acc)) => {
            let product = checked_mul_i64(value.to_i64(), n)?;
            checked_add_i64(acc, product).map(SumState::Signed)
        }
        (Family::Float, SumState::Float(acc)) => {
            let x = value.to_f64();
            if skip_nans && x.is_nan() {
                return Some(state);
            }
            let sum = float_from_bits(acc) + x * nearest_u64_to_f64(n);
            Some(SumState::Float(float_to_bits(sum)))
        }
        _ => None,
    }
}

impl Column for Constant {
    ghost meaning = { constant_meaning };

    ghost proper = { constant_proper };

    fn dtype(&self) -> DType {
        self.scalar.dtype()
    }

    fn len(&self) -> u64 {
        self.len
    }

    fn constant(&self) -> Option<Option<Value>> {
        Some(self.scalar.value())
    }

    fn entry(&self, i: u64) -> Option<Option<Value>> {
        (i < self.len).then_some(self.scalar.value())
    }

    fn next_stretch(&self, from: u64) -> Option<Stretch> {
        let starts = from == 0 && self.len > 0 && self.scalar.value().is_some();
        starts.then_some(Stretch {
            start: 0,
            end: self.len,
        })
    }

    fn add_stretch(&self, at: u64, skip_nans: bool, state: SumState) -> Option<SumState> {
        match self.scalar.value() {
            Some(value) if at == 0 && self.len != 0 => {
                let family = self.scalar.dtype().ptype.family();
                add_times(family, value, self.len, state, skip_nans)
            }
            _ => Some(state),
        }
    }
}

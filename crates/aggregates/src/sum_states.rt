ghost use Rattle.std.specs.Prelude.{◌≡◌};
ghost use Rattle.aggregates.specs.SumModel.{scalar_of_state, scalar_of, wrote_state, cached_sum_fits};
ghost use Rattle.aggregates.specs.SumStates.{joined, merged_states, taken_in, full};

use dtype::{DType, Family, Scalar, Statistics, Value};
use sums::{SumState, checked_add_i64, checked_add_u64, float_from_bits, float_to_bits};

// A state as a scalar of the type of its family's sums.
fn state_scalar(state: SumState) -> Scalar
    ensures { result ≡ scalar_of_state state }
{
    Scalar::primitive(state.into(), true)
}

// The scalar of a sum: its state, or null.
pub(crate) fn sum_scalar(dtype: DType, current: Option<SumState>) -> Scalar
    ensures { result ≡ scalar_of dtype current }
{
    current.map_or_else(|| Scalar::null(dtype.sum_dtype().ptype), state_scalar)
}

// A sum that is not null becomes the exact sum of the record.
pub(crate) fn write_state(current: Option<SumState>, stats: &mut Statistics)
    ensures { stats.new ≡ wrote_state current stats.old }
{
    if let Some(state) = current {
        // Not refused: a state's scalar is not null.
        stats.set_sum(state_scalar(state)).unwrap();
    }
}

// Two states added: integers with a check, floats once.
fn join_states(first: SumState, second: SumState) -> Option<SumState>
    ensures { result ≡ joined first second }
{
    match (first, second) {
        (SumState::Unsigned(a), SumState::Unsigned(b)) => {
            checked_add_u64(a, b).map(SumState::Unsigned)
        }
        (SumState::Signed(a), SumState::Signed(b)) => checked_add_i64(a, b).map(SumState::Signed),
        (SumState::Float(a), SumState::Float(b)) => {
            let sum = float_from_bits(a) + float_from_bits(b);
            Some(SumState::Float(float_to_bits(sum)))
        }
        _ => None,
    }
}

// Null with anything is null.
pub(crate) fn merge_states(first: Option<SumState>, second: Option<SumState>) -> Option<SumState>
    ensures { result ≡ merged_states first second }
{
    join_states(first?, second?)
}

// A value, or null, as a state of a family.
pub(crate) fn state_from_value(family: Family, value: Option<Value>) -> Option<SumState>
    ensures { result ≡ taken_in family value }
{
    value.map(|value| match family {
        Family::Unsigned => SumState::Unsigned(value.to_u64()),
        Family::Signed => SumState::Signed(value.to_i64()),
        Family::Float => SumState::Float(float_to_bits(value.to_f64())),
    })
}

// Null and a NaN no longer change.
pub(crate) fn is_full(current: Option<SumState>) -> bool
    ensures { result ≡ full current }
{
    current.is_none_or(
        |state| matches!(state, SumState::Float(bits) if float_from_bits(bits).is_nan()),
    )
}

// A cached sum has the type of the column's sum; whether it is nullable does not matter.
pub(crate) fn cached_fits(dtype: DType, cached: Scalar) -> bool
    ensures { result ≡ cached_sum_fits dtype cached }
{
    cached.dtype().ptype == dtype.sum_dtype().ptype
}

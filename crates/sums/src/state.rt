ghost use Rattle.std.specs.Prelude.{◌≡◌, true};
ghost use Rattle.std.specs.Float.Ieee as Ieee;
ghost use Rattle.sums.specs.States.{held, kept, nan_pattern, zero_of, value_of, StandsFor};

use dtype::{Family, Refusal, Value};
use std::num::{f64_from_bits_with_nan, f64_to_bits_with_nan};

// The state of a running sum, by the family of its numbers. A float lies as its bits: the definition has no float in a state.
#[derive(Clone, Copy, PartialEq, Eq, Debug)]
pub enum SumState {
    Unsigned(u64),
    Signed(i64),
    Float(u64),
}

// The bits of a float. Each NaN has the one pattern 7FF8000000000000.
pub fn float_to_bits(x: f64) -> u64
    ensures bits { result ≡ kept x }
    ensures one_nan { Ieee.is_nan x ≡ true → result ≡ nan_pattern }
    ensures back { held result ≡ x }
{
    f64_to_bits_with_nan(x)
}

pub fn float_from_bits(bits: u64) -> f64
    ensures { result ≡ held bits }
{
    f64_from_bits_with_nan(bits)
}

impl SumState {
    // Nothing added yet: 0 or 0.0.
    pub fn zero(family: Family) -> Self
        ensures { result ≡ zero_of family }
    {
        match family {
            Family::Unsigned => SumState::Unsigned(0),
            Family::Signed => SumState::Signed(0),
            Family::Float => SumState::Float(0),
        }
    }
}

// The state as a value of the type of its family's sums.
impl From<SumState> for Value {
    ghost from_gives = { λ state value. value ≡ value_of state };

    fn from(state: SumState) -> Self {
        match state {
            SumState::Unsigned(n) => Value::U64(n),
            SumState::Signed(n) => Value::I64(n),
            SumState::Float(bits) => Value::F64(float_from_bits(bits)),
        }
    }
}

// The state that a value of a sum's type stands for. A value of another type is refused.
impl TryFrom<Value> for SumState {
    type Error = Refusal;

    ghost try_from_gives = { StandsFor };

    fn try_from(value: Value) -> Result<Self, Self::Error> {
        match value {
            Value::U64(n) => Ok(SumState::Unsigned(n)),
            Value::I64(n) => Ok(SumState::Signed(n)),
            Value::F64(x) => Ok(SumState::Float(float_to_bits(x))),
            _ => Err(Refusal::WrongValue),
        }
    }
}

ghost use Rattle.std.specs.Prelude.{◌≡◌};
ghost use Rattle.dtype.specs.Values.{kind_of, nan_value, nat_of, int_of, float_of};

use crate::ptype::PType;

// A number of one of the ten types.
#[derive(Clone, Copy, PartialEq, Debug)]
pub enum Value {
    U8(u8),
    U16(u16),
    U32(u32),
    U64(u64),
    I8(i8),
    I16(i16),
    I32(i32),
    I64(i64),
    F32(f32),
    F64(f64),
}

impl Value {
    // A match of ten arms, as a macro that wrote them would be as long.
    pub fn ptype(self) -> PType
        ensures { result ≡ kind_of self }
    {
        match self {
            Value::U8(_) => PType::U8,
            Value::U16(_) => PType::U16,
            Value::U32(_) => PType::U32,
            Value::U64(_) => PType::U64,
            Value::I8(_) => PType::I8,
            Value::I16(_) => PType::I16,
            Value::I32(_) => PType::I32,
            Value::I64(_) => PType::I64,
            Value::F32(_) => PType::F32,
            Value::F64(_) => PType::F64,
        }
    }

    pub fn is_nan(self) -> bool
        ensures { result ≡ nan_value self }
    {
        match self {
            Value::F32(x) => x.is_nan(),
            Value::F64(x) => x.is_nan(),
            _ => false,
        }
    }

    // The number in a value of the unsigned family, and 0 for another's, as the definition says: this, `to_i64` and `to_f64`
    // promise not to fail.
    pub fn to_u64(self) -> u64
        ensures { result ≡ nat_of self }
    {
        match self {
            Value::U8(x) => u64::from(x),
            Value::U16(x) => u64::from(x),
            Value::U32(x) => u64::from(x),
            Value::U64(x) => x,
            _ => 0,
        }
    }

    // The number in a value of the signed family, and 0 for another's.
    pub fn to_i64(self) -> i64
        ensures { result ≡ int_of self }
    {
        match self {
            Value::I8(x) => i64::from(x),
            Value::I16(x) => i64::from(x),
            Value::I32(x) => i64::from(x),
            Value::I64(x) => x,
            _ => 0,
        }
    }

    // The number in a value of the float family, and 0.0 for another's.
    pub fn to_f64(self) -> f64
        ensures { result ≡ float_of self }
    {
        match self {
            Value::F32(x) => f64::from(x),
            Value::F64(x) => x,
            _ => 0.0,
        }
    }
}

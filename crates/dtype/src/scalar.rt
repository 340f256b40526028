ghost use Rattle.std.specs.Prelude.{◌≡◌, true, Some, None, MatchResult};
ghost use Rattle.dtype.specs.declared.refusal.Refusal.TheVariants.{WrongValue};
ghost use Rattle.dtype.specs.Values.{scalar_ok, kind_of, ValueOf};

use crate::ptype::{DType, PType};
use crate::refusal::Refusal;
use crate::value::Value;

// A dtype, and null or a value of its type. Without the nullable flag it is never null.
#[derive(Clone, Copy, PartialEq, Debug)]
pub struct Scalar {
    dtype: DType,
    value: Option<Value>,
    ghost ok: { scalar_ok dtype value ≡ true },
}

impl Scalar {
    // Refused where the value is of another type, or null without the flag.
    pub fn try_new(dtype: DType, value: Option<Value>) -> Result<Self, Refusal>
        ensures { MatchResult result (λ s. (s.dtype ≡ dtype) × (s.value ≡ value)) (λ e. (e ≡ WrongValue) × (ValueOf dtype value → ⊥)) }
    {
        if value.map_or(dtype.nullable, |v| v.ptype() == dtype.ptype) {
            Ok(Self { dtype, value })
        } else {
            Err(Refusal::WrongValue)
        }
    }

    // The null of a number type.
    pub fn null(ptype: PType) -> Self
        ensures { (result.dtype ≡ record { ptype = ptype; nullable = true }) × (result.value ≡ None) }
    {
        let dtype = DType {
            ptype,
            nullable: true,
        };
        Self { dtype, value: None }
    }

    // A value of its own type.
    pub fn primitive(value: Value, nullable: bool) -> Self
        ensures { (result.dtype ≡ record { ptype = kind_of value; nullable = nullable }) × (result.value ≡ Some value) }
    {
        let dtype = DType {
            ptype: value.ptype(),
            nullable,
        };
        Self {
            dtype,
            value: Some(value),
        }
    }

    pub fn dtype(self) -> DType
        ensures { result ≡ self.dtype }
    {
        self.dtype
    }

    pub fn value(self) -> Option<Value>
        ensures { result ≡ self.value }
    {
        self.value
    }
}

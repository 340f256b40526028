ghost use Rattle.std.specs.Prelude.{◌≡◌, ◌^◌, ◌<◌, true, FitsSigned, refl};
ghost use Rattle.std.specs.Int.{w32};
ghost use Rattle.dtype.specs.declared.ptype.PType.{PType as Kind};
ghost use Rattle.dtype.specs.declared.ptype.PType.TheVariants as p;
ghost use Rattle.dtype.specs.declared.value.Value.{Value as Held};
ghost use Rattle.dtype.specs.declared.value.Value.TheVariants as v;
ghost use Rattle.dtype.specs.Types.{narrow};
ghost use Rattle.dtype.specs.Values.{kind_of, nat_of, int_of, float_of, nan_value};

use dtype::{PType, Value};

// A number type of the language, by its type code and the value that each of its numbers is.
pub trait NativePType: Copy {
    ghost PTYPE: { Kind };

    ghost held: { Self → Held };

    const PTYPE: PType;

    // No `Into<Value>`: clauses speak of the value as a function of the number, and ten impls of `From` would be as long.
    fn value(self) -> Value
        ensures { result ≡ held self };

    fn is_nan(self) -> bool
        ensures { result ≡ nan_value (held self) }
    {
        self.value().is_nan()
    }

    ghost typed: { (x : Self) → kind_of (held x) ≡ PTYPE };
}

// The unsigned types, which are one trait of three: a slice's sum is one text for each family. Each widens to 64 bits without
// loss. Tried: one default `widen` by `Into<u64>`. `low` is then a law of each type, and a law knows no range of its x.
pub trait UnsignedPType: NativePType {
    fn widen(self) -> u64
        ensures same { result ≡ nat_of (Self.NativePType.held self) }
        ensures low { narrow Self.NativePType.PTYPE ≡ true → result < 2 ^ 32 };
}

// The signed types, a trait of its own for the same reason.
pub trait SignedPType: NativePType {
    fn widen(self) -> i64
        ensures same { result ≡ int_of (Self.NativePType.held self) }
        ensures low { narrow Self.NativePType.PTYPE ≡ true → FitsSigned w32 result };
}

// The float types, a trait of its own for the same reason. A 32-bit float is a 64-bit one of the same value.
pub trait FloatPType: NativePType {
    fn widen(self) -> f64
        ensures { result ≡ float_of (Self.NativePType.held self) };
}

impl NativePType for u8 {
    ghost PTYPE = { p.U8 };

    ghost held = { λ x. v.U8 x };

    ghost typed = { λ x. refl };

    const PTYPE: PType = PType::U8;

    fn value(self) -> Value {
        Value::U8(self)
    }
}

impl UnsignedPType for u8 {
    fn widen(self) -> u64 {
        u64::from(self)
    }
}

impl NativePType for u16 {
    ghost PTYPE = { p.U16 };

    ghost held = { λ x. v.U16 x };

    ghost typed = { λ x. refl };

    const PTYPE: PType = PType::U16;

    fn value(self) -> Value {
        Value::U16(self)
    }
}

impl UnsignedPType for u16 {
    fn widen(self) -> u64 {
        u64::from(self)
    }
}

impl NativePType for u32 {
    ghost PTYPE = { p.U32 };

    ghost held = { λ x. v.U32 x };

    ghost typed = { λ x. refl };

    const PTYPE: PType = PType::U32;

    fn value(self) -> Value {
        Value::U32(self)
    }
}

impl UnsignedPType for u32 {
    fn widen(self) -> u64 {
        u64::from(self)
    }
}

impl NativePType for u64 {
    ghost PTYPE = { p.U64 };

    ghost held = { λ x. v.U64 x };

    ghost typed = { λ x. refl };

    const PTYPE: PType = PType::U64;

    fn value(self) -> Value {
        Value::U64(self)
    }
}

impl UnsignedPType for u64 {
    fn widen(self) -> u64 {
        self
    }
}

impl NativePType for i8 {
    ghost PTYPE = { p.I8 };

    ghost held = { λ x. v.I8 x };

    ghost typed = { λ x. refl };

    const PTYPE: PType = PType::I8;

    fn value(self) -> Value {
        Value::I8(self)
    }
}

impl SignedPType for i8 {
    fn widen(self) -> i64 {
        i64::from(self)
    }
}

impl NativePType for i16 {
    ghost PTYPE = { p.I16 };

    ghost held = { λ x. v.I16 x };

    ghost typed = { λ x. refl };

    const PTYPE: PType = PType::I16;

    fn value(self) -> Value {
        Value::I16(self)
    }
}

impl SignedPType for i16 {
    fn widen(self) -> i64 {
        i64::from(self)
    }
}

impl NativePType for i32 {
    ghost PTYPE = { p.I32 };

    ghost held = { λ x. v.I32 x };

    ghost typed = { λ x. refl };

    const PTYPE: PType = PType::I32;

    fn value(self) -> Value {
        Value::I32(self)
    }
}

impl SignedPType for i32 {
    fn widen(self) -> i64 {
        i64::from(self)
    }
}

impl NativePType for i64 {
    ghost PTYPE = { p.I64 };

    ghost held = { λ x. v.I64 x };

    ghost typed = { λ x. refl };

    const PTYPE: PType = PType::I64;

    fn value(self) -> Value {
        Value::I64(self)
    }
}

impl SignedPType for i64 {
    fn widen(self) -> i64 {
        self
    }
}

impl NativePType for f32 {
    ghost PTYPE = { p.F32 };

    ghost held = { λ x. v.F32 x };

    ghost typed = { λ x. refl };

    const PTYPE: PType = PType::F32;

    fn value(self) -> Value {
        Value::F32(self)
    }
}

impl FloatPType for f32 {
    fn widen(self) -> f64 {
        f64::from(self)
    }
}

impl NativePType for f64 {
    ghost PTYPE = { p.F64 };

    ghost held = { λ x. v.F64 x };

    ghost typed = { λ x. refl };

    const PTYPE: PType = PType::F64;

    fn value(self) -> Value {
        Value::F64(self)
    }
}

impl FloatPType for f64 {
    fn widen(self) -> f64 {
        self
    }
}

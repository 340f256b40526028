ghost use Rattle.std.specs.Prelude.{◌≡◌};
ghost use Rattle.dtype.specs.Types.{code_of, Decodes, family_of, narrow, dtype_of_sum};

use crate::refusal::Refusal;

// The ten number types by their codes. Code 8, a 16-bit float in the source, is refused.
#[derive(Clone, Copy, PartialEq, Eq, Debug)]
pub enum PType {
    U8 = 0,
    U16 = 1,
    U32 = 2,
    U64 = 3,
    I8 = 4,
    I16 = 5,
    I32 = 6,
    I64 = 7,
    F32 = 9,
    F64 = 10,
}

// The three families of number types: each has one type of sums.
#[derive(Clone, Copy, PartialEq, Eq, Debug)]
pub enum Family {
    Unsigned,
    Signed,
    Float,
}

// A code is that of one type, and another is refused. With one table of the ten types and a `find` in it (tried here) the
// search asks for an answer of its own, and this match asks for none.
impl TryFrom<u8> for PType {
    type Error = Refusal;

    ghost try_from_gives = { Decodes };

    fn try_from(code: u8) -> Result<Self, Self::Error> {
        match code {
            0 => Ok(PType::U8),
            1 => Ok(PType::U16),
            2 => Ok(PType::U32),
            3 => Ok(PType::U64),
            4 => Ok(PType::I8),
            5 => Ok(PType::I16),
            6 => Ok(PType::I32),
            7 => Ok(PType::I64),
            9 => Ok(PType::F32),
            10 => Ok(PType::F64),
            _ => Err(Refusal::TypeCode),
        }
    }
}

impl From<PType> for u8 {
    ghost from_gives = { λ ptype code. code ≡ code_of ptype };

    fn from(ptype: PType) -> Self {
        ptype as u8
    }
}

impl PType {
    pub fn family(self) -> Family
        ensures { result ≡ family_of self }
    {
        match self {
            PType::U8 | PType::U16 | PType::U32 | PType::U64 => Family::Unsigned,
            PType::I8 | PType::I16 | PType::I32 | PType::I64 => Family::Signed,
            PType::F32 | PType::F64 => Family::Float,
        }
    }

    // Whether the type has fewer than 64 bits.
    pub fn is_narrow(self) -> bool
        ensures { result ≡ narrow self }
    {
        !matches!(self, PType::U64 | PType::I64 | PType::F64)
    }
}

// A number type and whether entries may be null: a dtype is these two, and both always count.
#[derive(Clone, Copy, PartialEq, Eq, Debug)]
pub struct DType {
    pub ptype: PType,
    pub nullable: bool,
}

impl DType {
    // The dtype of a sum: the widest type of the family, nullable.
    pub fn sum_dtype(self) -> Self
        ensures { result ≡ dtype_of_sum self }
    {
        let ptype = match self.ptype.family() {
            Family::Unsigned => PType::U64,
            Family::Signed => PType::I64,
            Family::Float => PType::F64,
        };
        Self {
            ptype,
            nullable: true,
        }
    }
}

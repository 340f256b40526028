ghost use Rattle.std.specs.Prelude.{Some, codes};
ghost use Rattle.dtype.specs.Names.{name_of, dtype_name, ReadsName};

use crate::ptype::{DType, PType};
use std::error::Error;
use std::fmt;
use std::str::FromStr;

// A text that is no number type's name.
#[derive(Clone, Copy, PartialEq, Eq, Debug)]
pub struct UnknownType;

impl fmt::Display for UnknownType {
    ghost output = { λ _. Some (codes "unknown number type") };

    fn fmt<W: fmt::Write>(&self, f: &mut fmt::Formatter<W>) -> fmt::Result {
        f.write_str("unknown number type")
    }
}

impl Error for UnknownType {}

// A match of ten arms here and one below, as each has a word of its own.
impl fmt::Display for PType {
    ghost output = { λ t. Some (name_of t) };

    fn fmt<W: fmt::Write>(&self, f: &mut fmt::Formatter<W>) -> fmt::Result {
        f.write_str(match self {
            PType::U8 => "u8",
            PType::U16 => "u16",
            PType::U32 => "u32",
            PType::U64 => "u64",
            PType::I8 => "i8",
            PType::I16 => "i16",
            PType::I32 => "i32",
            PType::I64 => "i64",
            PType::F32 => "f32",
            PType::F64 => "f64",
        })
    }
}

// A match as in `TryFrom` of a code, for the same reason.
impl FromStr for PType {
    type Err = UnknownType;

    ghost from_str_gives = { ReadsName name_of };

    fn from_str(name: &str) -> Result<Self, Self::Err> {
        match name {
            "u8" => Ok(PType::U8),
            "u16" => Ok(PType::U16),
            "u32" => Ok(PType::U32),
            "u64" => Ok(PType::U64),
            "i8" => Ok(PType::I8),
            "i16" => Ok(PType::I16),
            "i32" => Ok(PType::I32),
            "i64" => Ok(PType::I64),
            "f32" => Ok(PType::F32),
            "f64" => Ok(PType::F64),
            _ => Err(UnknownType),
        }
    }
}

impl fmt::Display for DType {
    ghost output = { λ d. Some (dtype_name d) };

    fn fmt<W: fmt::Write>(&self, f: &mut fmt::Formatter<W>) -> fmt::Result {
        let ptype = self.ptype;
        let mark = if self.nullable { "?" } else { "" };
        write!(f, "{ptype}{mark}")
    }
}

impl FromStr for DType {
    type Err = UnknownType;

    ghost from_str_gives = { ReadsName dtype_name };

    fn from_str(text: &str) -> Result<Self, Self::Err> {
        let bare = text.strip_suffix('?');
        Ok(Self {
            ptype: bare.unwrap_or(text).parse()?,
            nullable: bare.is_some(),
        })
    }
}

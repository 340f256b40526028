ghost use Rattle.std.specs.Prelude.{◌≡◌, [], length, is_some, unwrap_or, MatchResult, IfOk, IfErr, ◌≢◌};
ghost use Rattle.std.specs.Option.{option_map};
ghost use Rattle.columns.specs.Bitmaps.{bitmap_len};
ghost use Rattle.columns.specs.Values.{values_of};

use crate::bitmap::{Stretch, is_valid, next_stretch};
use crate::column::Column;
use crate::values::Values;
use dtype::{DType, Refusal, Value};
use sums::SumState;

// Values, and where they are nullable a validity bitmap of just enough bytes, both lent.
#[derive(Clone, Copy, PartialEq, Debug)]
pub struct Primitive<'a> {
    values: Values<'a>,
    validity: Option<&'a [u8]>,
    ghost just_enough: { length (unwrap_or (option_map (λ bits. bits.now) validity) []) ≡ bitmap_len (is_some validity) (length (values_of values)) },
}

impl<'a> Primitive<'a> {
    ghost use Rattle.dtype.specs.declared.refusal.Refusal.TheVariants.{BitmapLength};
    ghost use Rattle.columns.specs.Primitives.{nullable_of, bits_of};

    // A column with a bitmap is nullable, and has just enough bitmap bytes for its entries.
    pub fn new(values: Values<'a>, validity: Option<&'a [u8]>) -> Result<Self, Refusal>
        ensures made { IfOk result (λ c. (c.values ≡ values.entry) × (c.validity ≡ validity.entry)) }
        ensures refused { IfErr result (λ e. (e ≡ BitmapLength) × (length (unwrap_or (option_map (λ b. b.now) validity.entry) []) ≢ bitmap_len (is_some validity.entry) (length (values_of values.entry)))) }
    {
        match validity {
            Some(bits) if bits.len() as u64 != values.len().div_ceil(8) => {
                Err(Refusal::BitmapLength)
            }
            _ => Ok(Self { values, validity }),
        }
    }

    // The same from a flag and bytes, which are none where the column is not nullable.
    pub fn try_new(values: Values<'a>, nullable: bool, bits: &'a [u8]) -> Result<Self, Refusal>
        ensures { MatchResult result (λ c. (c.values ≡ values.entry) × (nullable_of c ≡ nullable) × (bits_of c ≡ bits.now) × (length bits.now ≡ bitmap_len nullable (length (values_of values.entry)))) (λ e. (e ≡ BitmapLength) × (length bits.now ≢ bitmap_len nullable (length (values_of values.entry)))) }
    {
        if !nullable && !bits.is_empty() {
            return Err(Refusal::BitmapLength);
        }
        Self::new(values, nullable.then_some(bits))
    }
}

impl Column for Primitive<'_> {
    ghost use Rattle.columns.specs.Primitives.{nullable_of, bits_of, primitive_meaning, primitive_proper};

    ghost meaning = { primitive_meaning };

    ghost proper = { primitive_proper };

    fn dtype(&self) -> DType {
        DType {
            ptype: self.values.ptype(),
            nullable: self.validity.is_some(),
        }
    }

    fn len(&self) -> u64 {
        self.values.len()
    }

    fn constant(&self) -> Option<Option<Value>> {
        None
    }

    fn entry(&self, i: u64) -> Option<Option<Value>> {
        let value = self.values.get(i)?;
        let valid = self.validity.is_none_or(|bits| is_valid(bits, i));
        Some(valid.then_some(value))
    }

    // Without a bitmap the whole column is one stretch: one line, as in `Constant`.
    fn next_stretch(&self, from: u64) -> Option<Stretch> {
        let len = self.values.len();
        match self.validity {
            Some(bits) => next_stretch(bits, len, from),
            None => (from == 0 && len > 0).then_some(Stretch { start: 0, end: len }),
        }
    }

    fn add_stretch(&self, at: u64, skip_nans: bool, state: SumState) -> Option<SumState> {
        match self.next_stretch(at) {
            Some(stretch) if stretch.start == at => self.values.add(stretch, skip_nans, state),
            _ => Some(state),
        }
    }
}

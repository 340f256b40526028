ghost use Rattle.std.specs.Prelude.{◌≡◌, ◌-◌, ◌≤◌, map, length, take, drop};
ghost use Rattle.std.specs.List.{slice_get};
ghost use Rattle.dtype.specs.Types.{family_of, narrow};
ghost use Rattle.columns.specs.States.{unsigned_span, signed_span, float_span, add_span};
ghost use Rattle.columns.specs.Values.{values_kind, values_of};

use crate::bitmap::Stretch;
use dtype::{PType, Value};
use numbers::{FloatPType, NativePType, SignedPType, UnsignedPType};
use sums::{
    SumState, float_from_bits, float_to_bits, sum_float_all, sum_signed_all, sum_unsigned_all,
};

// The values of a primitive column, lent.
#[derive(Clone, Copy, PartialEq, Debug)]
pub enum Values<'a> {
    U8(&'a [u8]),
    U16(&'a [u16]),
    U32(&'a [u32]),
    U64(&'a [u64]),
    I8(&'a [i8]),
    I16(&'a [i16]),
    I32(&'a [i32]),
    I64(&'a [i64]),
    F32(&'a [f32]),
    F64(&'a [f64]),
}

// One expression for the values of each type, or one for each family of types.
macro_rules! match_each_native_ptype {
    ($of:expr, |$v:ident| $each:expr) => {
        match_each_native_ptype!($of, unsigned: |$v| $each, signed: |$v| $each, floating: |$v| $each)
    };
    ($of:expr, unsigned: |$u:ident| $unsigned:expr, signed: |$s:ident| $signed:expr, floating: |$f:ident| $floating:expr) => {
        match $of {
            Values::U8($u) => $unsigned,
            Values::U16($u) => $unsigned,
            Values::U32($u) => $unsigned,
            Values::U64($u) => $unsigned,
            Values::I8($s) => $signed,
            Values::I16($s) => $signed,
            Values::I32($s) => $signed,
            Values::I64($s) => $signed,
            Values::F32($f) => $floating,
            Values::F64($f) => $floating,
        }
    };
}

fn ptype_of<T: NativePType>(_values: &[T]) -> PType
    ensures { result ≡ T.NativePType.PTYPE }
{
    T::PTYPE
}

// The value at i, and none past the end.
fn value_at<T: NativePType>(values: &[T], i: u64) -> Option<Value>
    ensures { result ≡ slice_get (map T.NativePType.held values.now) i }
{
    values.get(i as usize).map(|x| x.value())
}

// The values of a stretch.
#[tactic(auto, using(crate::proofs::Parts::part_map))]
fn part<T: NativePType>(values: &[T], stretch: Stretch) -> &[T]
    requires { (stretch.start ≤ stretch.end) × (stretch.end ≤ length (map T.NativePType.held values.now)) }
    ensures { map T.NativePType.held result.now ≡ take (stretch.end - stretch.start) (drop stretch.start (map T.NativePType.held values.now)) }
{
    &values[stretch.start as usize..stretch.end as usize]
}

// A part goes to the sum of its family. Each family has a text of its own.
fn add_unsigned<T: UnsignedPType>(part: &[T], state: SumState) -> Option<SumState>
    ensures { result ≡ unsigned_span (narrow T.NativePType.PTYPE) (map T.NativePType.held part.now) state }
{
    let SumState::Unsigned(acc) = state else {
        return None;
    };
    sum_unsigned_all(acc, part).map(SumState::Unsigned)
}

fn add_signed<T: SignedPType>(part: &[T], state: SumState) -> Option<SumState>
    ensures { result ≡ signed_span (narrow T.NativePType.PTYPE) (map T.NativePType.held part.now) state }
{
    let SumState::Signed(acc) = state else {
        return None;
    };
    sum_signed_all(acc, part).map(SumState::Signed)
}

fn add_floats<T: FloatPType>(part: &[T], skip_nans: bool, state: SumState) -> Option<SumState>
    ensures { result ≡ float_span skip_nans (map T.NativePType.held part.now) state }
{
    let SumState::Float(acc) = state else {
        return None;
    };
    let sum = sum_float_all(float_from_bits(acc), part, skip_nans);
    Some(SumState::Float(float_to_bits(sum)))
}

impl Values<'_> {
    pub fn len(&self) -> u64
        ensures { result ≡ length (values_of self.now) }
    {
        match_each_native_ptype!(self, |values| values.len() as u64)
    }

    pub fn ptype(&self) -> PType
        ensures { result ≡ values_kind self.now }
    {
        match_each_native_ptype!(self, |values| ptype_of(values))
    }

    // The value at i, and none past the end.
    pub fn get(&self, i: u64) -> Option<Value>
        ensures { result ≡ slice_get (values_of self.now) i }
    {
        match_each_native_ptype!(self, |values| value_at(values, i))
    }

    // The values of a stretch added to a state.
    pub(crate) fn add(&self, stretch: Stretch, skip_nans: bool, state: SumState) -> Option<SumState>
        requires { (stretch.start ≤ stretch.end) × (stretch.end ≤ length (values_of self.now)) }
        ensures { result ≡ add_span (family_of (values_kind self.now)) (narrow (values_kind self.now)) skip_nans (take (stretch.end - stretch.start) (drop stretch.start (values_of self.now))) state }
    {
        match_each_native_ptype!(
            self,
            unsigned: |values| add_unsigned(part(values, stretch), state),
            signed: |values| add_signed(part(values, stretch), state),
            floating: |values| add_floats(part(values, stretch), skip_nans, state)
        )
    }
}

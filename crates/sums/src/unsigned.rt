ghost use Rattle.std.specs.Prelude.{◌≡◌};
ghost use Rattle.dtype.specs.Types.{narrow};
ghost use Rattle.dtype.specs.Values.{nat_of};
ghost use Rattle.sums.specs.Sums.{unsigned64, checked_sum, UnsignedTotal};

use crate::checked::checked_add_u64;
use crate::chunk::SUM_CHUNK;
use numbers::UnsignedPType;

// acc and the values of the slice, or none from the first overflow on: 64-bit values have a check
// each, and narrower ones have one for each chunk, counted from the slice's start. Each family has a
// text of its own, each check is a test beforehand, and the loops are left by a label: rules for sums.
pub fn sum_unsigned_all<T: UnsignedPType>(acc: u64, slice: &[T]) -> Option<u64>
    ensures steps { result ≡ checked_sum unsigned64 (narrow T.NativePType.PTYPE) (λ x. nat_of (T.NativePType.held x)) acc slice.now }
    ensures exact { UnsignedTotal (λ x. nat_of (T.NativePType.held x)) acc slice.now result }
{
    let mut total = acc;
    'batch: {
        if T::PTYPE.is_narrow() {
            for chunk in slice.chunks(SUM_CHUNK) {
                let chunk_sum: u64 = chunk.iter().map(|v| v.widen()).sum();
                let Some(t) = checked_add_u64(total, chunk_sum) else {
                    break 'batch None;
                };
                total = t;
            }
        } else {
            for v in slice {
                let Some(t) = checked_add_u64(total, v.widen()) else {
                    break 'batch None;
                };
                total = t;
            }
        }
        Some(total)
    }
}

ghost use Rattle.std.specs.Prelude.{◌≡◌};
ghost use Rattle.dtype.specs.Types.{narrow};
ghost use Rattle.dtype.specs.Values.{int_of};
ghost use Rattle.sums.specs.Sums.{signed64, checked_sum, SignedTotal};

use crate::checked::checked_add_i64;
use crate::chunk::SUM_CHUNK;
use numbers::SignedPType;

// Signed counterpart of `sum_unsigned_all`, by the same rules.
pub fn sum_signed_all<T: SignedPType>(acc: i64, slice: &[T]) -> Option<i64>
    ensures steps { result ≡ checked_sum signed64 (narrow T.NativePType.PTYPE) (λ x. int_of (T.NativePType.held x)) acc slice.now }
    ensures exact { SignedTotal (λ x. int_of (T.NativePType.held x)) acc slice.now result }
{
    let mut total = acc;
    'batch: {
        if T::PTYPE.is_narrow() {
            for chunk in slice.chunks(SUM_CHUNK) {
                let chunk_sum: i64 = chunk.iter().map(|v| v.widen()).sum();
                let Some(t) = checked_add_i64(total, chunk_sum) else {
                    break 'batch None;
                };
                total = t;
            }
        } else {
            for v in slice {
                let Some(t) = checked_add_i64(total, v.widen()) else {
                    break 'batch None;
                };
                total = t;
            }
        }
        Some(total)
    }
}

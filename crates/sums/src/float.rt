ghost use Rattle.std.specs.Prelude.{◌≡◌};
ghost use Rattle.dtype.specs.Values.{float_of};
ghost use Rattle.sums.specs.Sums.{float_sum};

use numbers::FloatPType;

// The values added left to right; with skip_nans each NaN is passed over. A `for` with a test for NaN: a rule for sums.
pub fn sum_float_all<T: FloatPType>(acc: f64, slice: &[T], skip_nans: bool) -> f64
    ensures { result ≡ float_sum skip_nans (λ x. float_of (T.NativePType.held x)) acc slice.now }
{
    let mut total = acc;
    for v in slice {
        let x = v.widen();
        if skip_nans && x.is_nan() {
            continue;
        }
        total += x;
    }
    total
}

ghost use Rattle.std.specs.Prelude.{◌≡◌, true, false, None, MatchResult};
ghost use Rattle.dtype.specs.declared.precision.Precision.TheVariants.{Exact};
ghost use Rattle.dtype.specs.declared.refusal.Refusal.TheVariants.{WrongValue};
ghost use Rattle.dtype.specs.Cached.{cached_ok};

use crate::precision::Precision;
use crate::refusal::Refusal;
use crate::scalar::Scalar;

// What is known of a column: its sum, which is never null, and its number of NaN entries.
#[derive(Clone, Copy, PartialEq, Debug)]
pub struct Statistics {
    sum: Precision<Scalar>,
    nan_count: Precision<u64>,
    ghost ok: { cached_ok sum ≡ true },
}

impl Statistics {
    // Refused where the sum is null.
    pub fn try_new(sum: Precision<Scalar>, nan_count: Precision<u64>) -> Result<Self, Refusal>
        ensures { MatchResult result (λ s. (s.sum ≡ sum) × (s.nan_count ≡ nan_count)) (λ e. (e ≡ WrongValue) × (cached_ok sum ≡ false)) }
    {
        if let Precision::Exact(s) | Precision::Inexact(s) = sum {
            s.value().ok_or(Refusal::WrongValue)?;
        }
        Ok(Self { sum, nan_count })
    }

    pub fn sum(self) -> Precision<Scalar>
        ensures { result ≡ self.sum }
    {
        self.sum
    }

    pub fn nan_count(self) -> Precision<u64>
        ensures { result ≡ self.nan_count }
    {
        self.nan_count
    }

    // The sum becomes exact; a null one is refused, and nothing changes.
    pub fn set_sum(&mut self, sum: Scalar) -> Result<(), Refusal>
        ensures { MatchResult result (λ _. (self.new.sum ≡ Exact sum) × (self.new.nan_count ≡ self.old.nan_count)) (λ e. (e ≡ WrongValue) × (sum.value ≡ None) × (self.new ≡ self.old)) }
    {
        *self = Self::try_new(Precision::Exact(sum), self.nan_count)?;
        Ok(())
    }
}

// Nothing is known. By hand, as no derive goes over a ghost field.
impl Default for Statistics {
    ghost use Rattle.dtype.specs.declared.precision.Precision.TheVariants.{Absent};

    ghost is_default = { λ s. (s.sum ≡ Absent) × (s.nan_count ≡ Absent) };

    fn default() -> Self {
        Self {
            sum: Precision::Absent,
            nan_count: Precision::Absent,
        }
    }
}

ghost use Rattle.std.specs.Prelude.{◌≡◌, Some};
ghost use Rattle.dtype.specs.Types.{family_of};
ghost use Rattle.aggregates.specs.SumModel.{sum_model, from_cached, ends, without_nans, by_nan_count};
ghost use Rattle.aggregates.specs.SumLawful.{sum_lawful};

use crate::aggregate::{AggregateColumns, AggregateFn, AggregateQuestions};
use crate::guard::sum_column;
use crate::sum_partial::{NumericalAggregateOpts, SumPartial};
use crate::sum_states::{
    cached_fits, is_full, merge_states, state_from_value, sum_scalar, write_state,
};
use columns::Column;
use dtype::{DType, Family, Precision, Refusal, Scalar, Statistics};
use sums::{SumState, float_to_bits};

// The sum of all valid entries, which is null once it leaves 64 bits or a null is handed in.
#[derive(Clone, Copy)]
pub struct Sum;

// The partial of a cached sum, and none where its number type is another.
fn partial_from_cached(dtype: DType, sum: Scalar) -> Option<SumPartial>
    ensures { result ≡ from_cached dtype sum }
{
    cached_fits(dtype, sum).then(|| SumPartial {
        current: state_from_value(dtype.ptype.family(), sum.value()),
    })
}

// A column known to have no NaN: an exact cached sum is added in place of it.
fn accumulate_without_nans<C: Column>(
    dtype: DType,
    column: &C,
    stats: &Statistics,
    state: SumState,
) -> Result<SumPartial, Refusal>
    ensures { without_nans dtype (C.Column.meaning column.now) stats.now state stats.now.sum ≡ ends stats.now state result }
{
    let Precision::Exact(sum) = stats.sum() else {
        return Ok(sum_column(column, false, state));
    };
    let cached = partial_from_cached(dtype, sum).ok_or(Refusal::CachedSumType)?;
    let current = merge_states(Some(state), cached.current);
    Ok(SumPartial { current })
}

// Floats with NaNs kept: an exact number of NaN entries above 0 makes the state NaN.
fn accumulate_floats<C: Column>(
    dtype: DType,
    column: &C,
    stats: &Statistics,
    state: SumState,
) -> Result<SumPartial, Refusal>
    ensures { by_nan_count dtype (C.Column.meaning column.now) stats.now state stats.now.nan_count ≡ ends stats.now state result }
{
    match stats.nan_count() {
        Precision::Exact(0) => accumulate_without_nans(dtype, column, stats, state),
        Precision::Exact(_) => {
            let current = Some(SumState::Float(float_to_bits(f64::NAN)));
            Ok(SumPartial { current })
        }
        _ => Ok(sum_column(column, false, state)),
    }
}

impl AggregateFn for Sum {
    type Options = NumericalAggregateOpts;

    type Partial = SumPartial;

    type PartialScalar = Scalar;

    type Answer = Scalar;

    ghost model = { sum_model };

    ghost lawful = { sum_lawful };

    fn same_options(first: Self::Options, second: Self::Options) -> bool {
        first == second
    }

    fn empty_partial(_options: Self::Options, dtype: DType) -> Self::Partial {
        let current = Some(SumState::zero(dtype.ptype.family()));
        SumPartial { current }
    }

    fn merge_partials(
        _options: Self::Options,
        _dtype: DType,
        first: Self::Partial,
        second: Self::Partial,
    ) -> Self::Partial {
        let current = merge_states(first.current, second.current);
        SumPartial { current }
    }

    fn takes_scalar(_options: Self::Options, dtype: DType, scalar: Self::PartialScalar) -> bool {
        scalar.dtype() == dtype.sum_dtype()
    }

    fn partial_from_scalar(
        _options: Self::Options,
        dtype: DType,
        scalar: Self::PartialScalar,
    ) -> Self::Partial {
        let current = state_from_value(dtype.ptype.family(), scalar.value());
        SumPartial { current }
    }

    fn caches_sum(options: Self::Options, _dtype: DType) -> bool {
        options.skip_nans
    }

    fn partial_from_sum(
        _options: Self::Options,
        dtype: DType,
        sum: Scalar,
    ) -> Option<Self::Partial> {
        partial_from_cached(dtype, sum)
    }
}

impl AggregateQuestions for Sum {
    // The same as the final answer: both are questions of the source, and one line each.
    fn partial_scalar(
        _options: Self::Options,
        dtype: DType,
        partial: &Self::Partial,
    ) -> Self::PartialScalar {
        sum_scalar(dtype, partial.current)
    }

    fn final_scalar(
        _options: Self::Options,
        dtype: DType,
        partial: &Self::Partial,
    ) -> Self::Answer {
        sum_scalar(dtype, partial.current)
    }

    fn is_saturated(_options: Self::Options, _dtype: DType, partial: &Self::Partial) -> bool {
        is_full(partial.current)
    }

    fn write_sum(
        _options: Self::Options,
        _dtype: DType,
        partial: &Self::Partial,
        stats: &mut Statistics,
    ) {
        write_state(partial.current, stats);
    }
}

impl AggregateColumns for Sum {
    fn accumulate<C: Column>(
        options: Self::Options,
        dtype: DType,
        column: &C,
        stats: &mut Statistics,
        partial: &mut Self::Partial,
    ) -> Result<(), Refusal> {
        let Some(state) = partial.current else {
            return Ok(());
        };
        *partial = match dtype.ptype.family() {
            Family::Float if !options.skip_nans => accumulate_floats(dtype, column, stats, state)?,
            _ => sum_column(column, options.skip_nans, state),
        };
        Ok(())
    }
}

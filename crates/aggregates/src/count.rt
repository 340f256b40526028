ghost use Rattle.std.specs.Prelude.{◌≡◌};
ghost use Rattle.sums.specs.Sums.{unsigned64, step};
ghost use Rattle.column_sums.specs.Counts.{column_count};
ghost use Rattle.aggregates.specs.CountModel.{count_model, scalar_of_count, merged_counts, taken_count};
ghost use Rattle.aggregates.specs.CountLawful.{count_lawful};

use crate::aggregate::{AggregateColumns, AggregateFn, AggregateQuestions};
use column_sums::count_column;
use columns::Column;
use dtype::{DType, PType, Refusal, Scalar, Statistics, Value};
use sums::checked_add_u64;

// The number of valid entries, NaNs among them. It is null once it leaves 64 bits or a null is handed in.
#[derive(Clone, Copy)]
pub struct Count;

// What was counted, or none where the count is null. A struct of one field, as the sum's partial is.
#[derive(Clone, Copy, PartialEq, Eq, Debug)]
pub struct CountPartial {
    pub current: Option<u64>,
}

// The scalar of a count: its number, or null.
fn count_scalar(current: Option<u64>) -> Scalar
    ensures { result ≡ scalar_of_count current }
{
    current.map_or_else(
        || Scalar::null(PType::U64),
        |count| Scalar::primitive(Value::U64(count), true),
    )
}

// Null with anything is null.
fn merge_counts(first: Option<u64>, second: Option<u64>) -> Option<u64>
    ensures { result ≡ merged_counts first second }
{
    checked_add_u64(first?, second?)
}

// A value, or null, as a count.
fn count_from_value(value: Option<Value>) -> Option<u64>
    ensures { result ≡ taken_count value }
{
    value.map(Value::to_u64)
}

// The column's count added. Null takes nothing and stays null.
fn add_count<C: Column>(column: &C, current: Option<u64>) -> Option<u64>
    ensures { result ≡ step unsigned64 current (column_count (C.Column.meaning column.now)) }
{
    checked_add_u64(current?, count_column(column))
}

impl AggregateFn for Count {
    type Options = ();

    type Partial = CountPartial;

    type PartialScalar = Scalar;

    type Answer = Scalar;

    ghost model = { count_model };

    ghost lawful = { count_lawful };

    fn same_options(_first: Self::Options, _second: Self::Options) -> bool {
        true
    }

    fn empty_partial(_options: Self::Options, _dtype: DType) -> Self::Partial {
        CountPartial { current: Some(0) }
    }

    fn merge_partials(
        _options: Self::Options,
        _dtype: DType,
        first: Self::Partial,
        second: Self::Partial,
    ) -> Self::Partial {
        let current = merge_counts(first.current, second.current);
        CountPartial { current }
    }

    fn takes_scalar(_options: Self::Options, _dtype: DType, scalar: Self::PartialScalar) -> bool {
        let counts = DType {
            ptype: PType::U64,
            nullable: true,
        };
        scalar.dtype() == counts
    }

    fn partial_from_scalar(
        _options: Self::Options,
        _dtype: DType,
        scalar: Self::PartialScalar,
    ) -> Self::Partial {
        let current = count_from_value(scalar.value());
        CountPartial { current }
    }

    fn caches_sum(_options: Self::Options, _dtype: DType) -> bool {
        false
    }

    fn partial_from_sum(
        _options: Self::Options,
        _dtype: DType,
        _sum: Scalar,
    ) -> Option<Self::Partial> {
        None
    }
}

impl AggregateQuestions for Count {
    // The same as the final answer: both are questions of the source, and one line each.
    fn partial_scalar(
        _options: Self::Options,
        _dtype: DType,
        partial: &Self::Partial,
    ) -> Self::PartialScalar {
        count_scalar(partial.current)
    }

    fn final_scalar(
        _options: Self::Options,
        _dtype: DType,
        partial: &Self::Partial,
    ) -> Self::Answer {
        count_scalar(partial.current)
    }

    fn is_saturated(_options: Self::Options, _dtype: DType, partial: &Self::Partial) -> bool {
        partial.current.is_none()
    }

    fn write_sum(
        _options: Self::Options,
        _dtype: DType,
        _partial: &Self::Partial,
        _stats: &mut Statistics,
    ) {}
}

impl AggregateColumns for Count {
    fn accumulate<C: Column>(
        _options: Self::Options,
        _dtype: DType,
        column: &C,
        _stats: &mut Statistics,
        partial: &mut Self::Partial,
    ) -> Result<(), Refusal> {
        partial.current = add_count(column, partial.current);
        Ok(())
    }
}

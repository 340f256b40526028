ghost use Rattle.std.specs.Prelude.{◌≡◌, Decides};
ghost use Rattle.aggregates.specs.Model.{Model, Lawful};

use columns::Column;
use dtype::{DType, Refusal, Scalar, Statistics};

// An aggregate. `model` says what each operation answers, and `lawful` what holds of these answers.
// The options and the dtype go side by side, as the source names them; a struct of both would be taken apart in each body.
// Three traits and not one: what only makes, merges and hands on partials asks a type for no more than that.
pub trait AggregateFn {
    type Options: Copy;

    type Partial: Drop;

    type PartialScalar: Copy;

    type Answer: Drop;

    ghost model: { Model Self.Options Self.Partial Self.PartialScalar Self.Answer };

    // Not `==`, which options that hold a float need not have as equality.
    fn same_options(first: Self::Options, second: Self::Options) -> bool
        ensures { Decides result (first ≡ second) };

    fn empty_partial(options: Self::Options, dtype: DType) -> Self::Partial
        ensures { result ≡ model.empty options dtype };

    fn merge_partials(
        options: Self::Options,
        dtype: DType,
        first: Self::Partial,
        second: Self::Partial,
    ) -> Self::Partial
        ensures { result ≡ model.merged options dtype first second };

    // Whether a scalar has the partial's dtype. It stands apart from `partial_from_scalar`, which as in the source gives a
    // partial of every scalar.
    fn takes_scalar(options: Self::Options, dtype: DType, scalar: Self::PartialScalar) -> bool
        ensures { result ≡ model.takes options dtype scalar };

    fn partial_from_scalar(
        options: Self::Options,
        dtype: DType,
        scalar: Self::PartialScalar,
    ) -> Self::Partial
        ensures { result ≡ model.taken options dtype scalar };

    // Whether the column's own sum is cached in its statistics record. It stands apart from `partial_from_sum`, as in the
    // source, and the model has a definition for each. These two and `write_sum` have no default body, which would have to
    // prove its clause for every model.
    fn caches_sum(options: Self::Options, dtype: DType) -> bool
        ensures { result ≡ model.caches options dtype };

    // The partial of a cached sum, and none where its number type is another.
    fn partial_from_sum(options: Self::Options, dtype: DType, sum: Scalar) -> Option<Self::Partial>
        ensures { result ≡ model.from_sum options dtype sum };

    ghost lawful: { Lawful model };
}

// The questions, which change nothing.
pub trait AggregateQuestions: AggregateFn {
    fn partial_scalar(
        options: Self::Options,
        dtype: DType,
        partial: &Self::Partial,
    ) -> Self::PartialScalar
        ensures { result ≡ Self.AggregateFn.model.reads options dtype partial.now };

    fn final_scalar(options: Self::Options, dtype: DType, partial: &Self::Partial) -> Self::Answer
        ensures { result ≡ Self.AggregateFn.model.final options dtype partial.now };

    fn is_saturated(options: Self::Options, dtype: DType, partial: &Self::Partial) -> bool
        ensures { result ≡ Self.AggregateFn.model.saturated options dtype partial.now };

    // Changes the record: the sum of a partial is written to it, for an aggregate that caches sums.
    fn write_sum(
        options: Self::Options,
        dtype: DType,
        partial: &Self::Partial,
        stats: &mut Statistics,
    )
        ensures { stats.new ≡ Self.AggregateFn.model.wrote options dtype partial.now stats.old };
}

// An aggregate that takes columns of any kind.
pub trait AggregateColumns: AggregateQuestions {
    // The column added to the partial. The column is read and the record written, so they are not one struct.
    fn accumulate<C: Column>(
        options: Self::Options,
        dtype: DType,
        column: &C,
        stats: &mut Statistics,
        partial: &mut Self::Partial,
    ) -> Result<(), Refusal>
        ensures { Self.AggregateFn.model.batch options dtype (C.Column.meaning column.now) stats.old partial.old ≡ record { answer = result; stats = stats.new; partial = partial.new } };
}

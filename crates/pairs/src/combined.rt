ghost use Rattle.std.specs.Prelude.{◌≡◌};
ghost use Rattle.pairs.specs.Pairs.{pair_model};
ghost use Rattle.pairs.specs.Paired.{pair_lawful};

use crate::options::PairOptions;
use accumulators::Accumulator;
use aggregates::{AggregateColumns, AggregateFn, AggregateQuestions};
use columns::Column;
use dtype::{DType, Refusal, Scalar, Statistics};

// How a pair makes its answer of those of its halves. A trait and not a closure: the pair is a type, whose answer is a type
// of its own and whose laws name `answers`.
pub trait CombineAnswers<L, R> {
    type Answer: Drop;

    ghost answers: { L → R → Self.Answer };

    fn combine(left: L, right: R) -> Self::Answer
        ensures { result ≡ answers left right };
}

// Two aggregates side by side. A column goes to both, and the answers of both make the pair's. The name is the source's; no
// value is made, as none of `Sum` is, and the fields only name the parts.
pub struct Combined<L, R, F> {
    pub left: L,
    pub right: R,
    pub answers: F,
}

impl<L: AggregateFn, R: AggregateFn, F: CombineAnswers<L::Answer, R::Answer>> AggregateFn
    for Combined<L, R, F> {
    type Options = PairOptions<L::Options, R::Options>;

    type Partial = (Accumulator<L>, Accumulator<R>);

    type PartialScalar = (L::PartialScalar, R::PartialScalar);

    type Answer = F::Answer;

    ghost model = { pair_model L.AggregateFn.model R.AggregateFn.model F.CombineAnswers.answers };

    ghost lawful = { pair_lawful L.AggregateFn.model R.AggregateFn.model F.CombineAnswers.answers L.AggregateFn.lawful R.AggregateFn.lawful };

    fn same_options(first: Self::Options, second: Self::Options) -> bool {
        L::same_options(first.0, second.0) && R::same_options(first.1, second.1)
    }

    fn empty_partial(options: Self::Options, dtype: DType) -> Self::Partial {
        (
            Accumulator::new(options.0, dtype),
            Accumulator::new(options.1, dtype),
        )
    }

    fn merge_partials(
        _options: Self::Options,
        _dtype: DType,
        first: Self::Partial,
        second: Self::Partial,
    ) -> Self::Partial {
        let (mut left, mut right) = first;
        let (mut other_left, mut other_right) = second;
        left.fold_taken(other_left.take_partial());
        right.fold_taken(other_right.take_partial());
        (left, right)
    }

    // Both dtypes are checked before either scalar is taken in.
    fn takes_scalar(options: Self::Options, dtype: DType, scalar: Self::PartialScalar) -> bool {
        L::takes_scalar(options.0, dtype, scalar.0) && R::takes_scalar(options.1, dtype, scalar.1)
    }

    fn partial_from_scalar(
        options: Self::Options,
        dtype: DType,
        scalar: Self::PartialScalar,
    ) -> Self::Partial {
        let mut left = Accumulator::new(options.0, dtype);
        let mut right = Accumulator::new(options.1, dtype);
        left.fold_partial(L::partial_from_scalar(options.0, dtype, scalar.0));
        right.fold_partial(R::partial_from_scalar(options.1, dtype, scalar.1));
        (left, right)
    }

    fn caches_sum(_options: Self::Options, _dtype: DType) -> bool {
        false
    }

    fn partial_from_sum(
        _options: Self::Options,
        _dtype: DType,
        _sum: Scalar,
    ) -> Option<Self::Partial> {
        None
    }
}

impl<
    L: AggregateQuestions,
    R: AggregateQuestions,
    F: CombineAnswers<L::Answer, R::Answer>,
> AggregateQuestions for Combined<L, R, F> {
    fn partial_scalar(
        _options: Self::Options,
        _dtype: DType,
        partial: &Self::Partial,
    ) -> Self::PartialScalar {
        (partial.0.partial_scalar(), partial.1.partial_scalar())
    }

    fn final_scalar(
        _options: Self::Options,
        _dtype: DType,
        partial: &Self::Partial,
    ) -> Self::Answer {
        F::combine(partial.0.final_scalar(), partial.1.final_scalar())
    }

    fn is_saturated(_options: Self::Options, _dtype: DType, partial: &Self::Partial) -> bool {
        partial.0.is_saturated() && partial.1.is_saturated()
    }

    fn write_sum(
        _options: Self::Options,
        _dtype: DType,
        _partial: &Self::Partial,
        _stats: &mut Statistics,
    ) {}
}

impl<
    L: AggregateColumns,
    R: AggregateColumns,
    F: CombineAnswers<L::Answer, R::Answer>,
> AggregateColumns for Combined<L, R, F> {
    // The column goes to the left half and, unless refused there, to the right one, with the record as the left half left it.
    #[tactic(auto, unfolding(crate::specs::Pairs::pair_batch))]
    fn accumulate<C: Column>(
        _options: Self::Options,
        _dtype: DType,
        column: &C,
        stats: &mut Statistics,
        partial: &mut Self::Partial,
    ) -> Result<(), Refusal> {
        partial.0.accumulate(column, stats)?;
        partial.1.accumulate(column, stats)
    }
}

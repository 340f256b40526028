ghost use Rattle.std.specs.Prelude.{◌≡◌, ◌≢◌, Some, None, IfErr, OnOk, OnErr};
ghost use Rattle.std.specs.Fn.{FnOnceReturnsAt};
ghost use Rattle.dtype.specs.declared.refusal.Refusal.TheVariants.{UnequalAccumulators};
ghost use Rattle.aggregates.specs.Model.{fresh, through_cache, straight, started};
ghost use Rattle.accumulators.specs.Accumulators.{unused, with_partial, saturated_now, scalar_now, answer_now, stepped, accumulated, folded, combined, merged_into};

use aggregates::{AggregateColumns, AggregateFn, AggregateQuestions};
use columns::Column;
use dtype::{DType, Precision, Refusal, Statistics};

// A running partial of an aggregate; none until something arrives.
#[derive(Drop)]
pub struct Accumulator<V: AggregateFn> {
    pub(crate) options: V::Options,
    pub(crate) dtype: DType,
    pub(crate) partial: Option<V::Partial>,
}

impl<V: AggregateFn> Accumulator<V> {
    pub fn new(options: V::Options, dtype: DType) -> Self
        ensures { result ≡ unused options dtype }
    {
        Accumulator {
            options,
            dtype,
            partial: None,
        }
    }

    // Where there is no partial, what merges in becomes it.
    pub fn fold_partial(&mut self, other: V::Partial)
        ensures { self.new ≡ folded V.AggregateFn.model other self.old }
    {
        // Both arms move `other`, so no method of Option takes it.
        let partial = match self.take_partial() {
            Some(current) => V::merge_partials(self.options, self.dtype, current, other),
            None => other,
        };
        self.partial = Some(partial);
    }

    // The partial, if any; then there is none.
    pub fn take_partial(&mut self) -> Option<V::Partial>
        ensures answer { result ≡ self.old.partial }
        ensures after { self.new ≡ with_partial self.old None }
    {
        self.partial.take()
    }

    // What another accumulator held is merged in, if it held anything.
    pub fn fold_taken(&mut self, other: Option<V::Partial>)
        ensures { self.new ≡ merged_into V.AggregateFn.model self.old other }
    {
        if let Some(partial) = other {
            self.fold_partial(partial);
        }
    }

    // A partial scalar of the right dtype is merged in; another is refused.
    pub fn combine_partials(&mut self, scalar: V::PartialScalar) -> Result<(), Refusal>
        ensures answer { result ≡ (combined V.AggregateFn.model scalar self.old).answer }
        ensures after { self.new ≡ (combined V.AggregateFn.model scalar self.old).after }
    {
        if !V::takes_scalar(self.options, self.dtype, scalar) {
            return Err(Refusal::PartialDType);
        }
        let other = V::partial_from_scalar(self.options, self.dtype, scalar);
        self.fold_partial(other);
        Ok(())
    }

    // Single fields are read, and the accumulator is written whole: a rule for what a board calls.
    pub fn reset(&mut self)
        ensures { self.new ≡ with_partial self.old None }
    {
        *self = Accumulator::new(self.options, self.dtype);
    }

    // Takes the other's partial, if any, and leaves it none. Accumulators of unequal options or dtypes are refused.
    pub fn merge_from(&mut self, other: &mut Self) -> Result<(), Refusal>
        ensures merged { OnOk result (self.new ≡ merged_into V.AggregateFn.model self.old other.old.partial) }
        ensures taken { OnOk result (other.new ≡ with_partial other.old None) }
        ensures same_options { OnOk result (self.old.options ≡ other.old.options) }
        ensures same_dtype { OnOk result (self.old.dtype ≡ other.old.dtype) }
        ensures refused { IfErr result (λ e. e ≡ UnequalAccumulators) }
        ensures unequal { OnErr result (self.old.options ≡ other.old.options → self.old.dtype ≢ other.old.dtype) }
        ensures unchanged { OnErr result ((self.new ≡ self.old) × (other.new ≡ other.old)) }
    {
        if !V::same_options(self.options, other.options) || self.dtype != other.dtype {
            return Err(Refusal::UnequalAccumulators);
        }
        self.fold_taken(other.take_partial());
        Ok(())
    }
}

impl<V: AggregateQuestions> Accumulator<V> {
    // Whether columns no longer matter.
    pub fn is_saturated(&self) -> bool
        ensures { result ≡ saturated_now V.AggregateFn.model self.now }
    {
        let running = self.partial.as_ref();
        running.is_some_and(|partial| V::is_saturated(self.options, self.dtype, partial))
    }

    // What is read of the partial, or of an empty one where there is none.
    fn read<R, Q: FnOnce(&V::Partial) -> R>(&self, question: Q) -> R
        requires { Q.IsAlwaysCallable question }
        ensures { FnOnceReturnsAt Q.FnOnce question (started V.AggregateFn.model self.now.options self.now.dtype self.now.partial) result }
    {
        match &self.partial {
            Some(partial) => question(partial),
            None => question(&V::empty_partial(self.options, self.dtype)),
        }
    }

    pub fn partial_scalar(&self) -> V::PartialScalar
        ensures { result ≡ scalar_now V.AggregateFn.model self.now }
    {
        self.read(|partial| V::partial_scalar(self.options, self.dtype, partial))
    }

    pub fn final_scalar(&self) -> V::Answer
        ensures { result ≡ answer_now V.AggregateFn.model self.now }
    {
        self.read(|partial| V::final_scalar(self.options, self.dtype, partial))
    }

    // The partial scalar; then there is no partial. Here and in `finish` three steps, as in the source: a helper that takes
    // the question would be longer than either.
    pub fn flush(&mut self) -> V::PartialScalar
        ensures answer { result ≡ scalar_now V.AggregateFn.model self.old }
        ensures after { self.new ≡ with_partial self.old None }
    {
        let scalar = self.partial_scalar();
        self.reset();
        scalar
    }

    // The final answer; then there is no partial.
    pub fn finish(&mut self) -> V::Answer
        ensures answer { result ≡ answer_now V.AggregateFn.model self.old }
        ensures after { self.new ≡ with_partial self.old None }
    {
        let answer = self.final_scalar();
        self.reset();
        answer
    }
}

impl<V: AggregateColumns> Accumulator<V> {
    // The column by itself: its sum is written to the record, and it is merged in.
    fn accumulate_fresh<C: Column>(
        &mut self,
        column: &C,
        stats: &mut Statistics,
    ) -> Result<(), Refusal>
        ensures { stepped self.old (fresh V.AggregateFn.model self.old.options self.old.dtype (C.Column.meaning column.now) stats.old self.old.partial) ≡ record { answer = result; stats = stats.new; after = self.new } }
    {
        let mut batch = V::empty_partial(self.options, self.dtype);
        V::accumulate(self.options, self.dtype, column, stats, &mut batch)?;
        V::write_sum(self.options, self.dtype, &batch, stats);
        self.fold_partial(batch);
        Ok(())
    }

    // An exact cached sum is merged in place of the column, and refused where its number type is another.
    fn accumulate_cached<C: Column>(
        &mut self,
        column: &C,
        stats: &mut Statistics,
    ) -> Result<(), Refusal>
        ensures { stepped self.old (through_cache V.AggregateFn.model self.old.options self.old.dtype (C.Column.meaning column.now) stats.old self.old.partial stats.old.sum) ≡ record { answer = result; stats = stats.new; after = self.new } }
    {
        let Precision::Exact(sum) = stats.sum() else {
            return self.accumulate_fresh(column, stats);
        };
        let cached = V::partial_from_sum(self.options, self.dtype, sum);
        self.fold_partial(cached.ok_or(Refusal::CachedSumType)?);
        Ok(())
    }

    // The column is added straight to the running partial; an empty one is put first where there is none.
    fn accumulate_batch<C: Column>(
        &mut self,
        column: &C,
        stats: &mut Statistics,
    ) -> Result<(), Refusal>
        ensures { stepped self.old (straight V.AggregateFn.model self.old.options self.old.dtype (V.AggregateFn.model.batch self.old.options self.old.dtype (C.Column.meaning column.now) stats.old (started V.AggregateFn.model self.old.options self.old.dtype self.old.partial))) ≡ record { answer = result; stats = stats.new; after = self.new } }
    {
        let running = self
            .partial
            .get_or_insert_with(|| V::empty_partial(self.options, self.dtype));
        V::accumulate(self.options, self.dtype, column, stats, running)
    }

    // Saturation is tested first, then the dtype, then come the steps.
    pub fn accumulate<C: Column>(
        &mut self,
        column: &C,
        stats: &mut Statistics,
    ) -> Result<(), Refusal>
        ensures { accumulated V.AggregateFn.model (C.Column.meaning column.now) stats.old self.old ≡ record { answer = result; stats = stats.new; after = self.new } }
    {
        if self.is_saturated() {
            return Ok(());
        }
        if column.dtype() != self.dtype {
            return Err(Refusal::ColumnDType);
        }
        if V::caches_sum(self.options, self.dtype) {
            self.accumulate_cached(column, stats)
        } else {
            self.accumulate_batch(column, stats)
        }
    }
}

// What an aggregate is, and the aggregates Sum and Count.
#![tactic(auto)]

mod aggregate;
mod count;
mod guard;
mod sum;
mod sum_partial;
mod sum_states;

pub use aggregate::{AggregateColumns, AggregateFn, AggregateQuestions};
pub use count::{Count, CountPartial};
pub use sum::Sum;
pub use sum_partial::{NumericalAggregateOpts, SumPartial};

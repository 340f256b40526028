use crate::options::PairOptions;
use crate::reported::Both;
use accumulators::Accumulator;
use aggregates::{AggregateColumns, AggregateQuestions, Count, NumericalAggregateOpts, Sum};
use columns::Constant;
use dtype::{DType, PType, Precision, Refusal, Scalar, Statistics, Value};
use std::test::Fail;

const SKIP: NumericalAggregateOpts = NumericalAggregateOpts { skip_nans: true };

const KEEP: NumericalAggregateOpts = NumericalAggregateOpts { skip_nans: false };

fn plain(ptype: PType) -> DType {
    DType {
        ptype,
        nullable: false,
    }
}

// One entry, not nullable.
fn one(value: Value) -> Constant {
    Constant {
        scalar: Scalar::primitive(value, false),
        len: 1,
    }
}

// The value of an exact cached sum.
fn cached(stats: Statistics) -> Option<Value> {
    match stats.sum() {
        Precision::Exact(sum) => sum.value(),
        _ => None,
    }
}

#[test]
fn saturation_comes_before_the_dtype(rt: HostRuntime) -> Result<(), Fail> {
    let mut stats = Statistics::default();
    let mut sum = Accumulator::<Sum>::new(SKIP, plain(PType::I64));
    assert_eq!(rt;
        sum.accumulate(&one(Value::U8(1)), &mut stats),
        Err(Refusal::ColumnDType)
    );
    assert!(rt; sum.take_partial().is_none() && cached(stats).is_none());
    sum.combine_partials(Scalar::null(PType::I64))?;
    sum.accumulate(&one(Value::U8(1)), &mut stats)?;
    assert!(rt; sum.final_scalar().value().is_none() && cached(stats).is_none());
    Ok(())
}

#[test]
fn a_column_is_summed_by_itself_and_cached(rt: HostRuntime) -> Result<(), Fail> {
    let mut stats = Statistics::default();
    let mut sum = Accumulator::<Sum>::new(SKIP, plain(PType::I64));
    sum.accumulate(&one(Value::I64(-5)), &mut stats)?;
    assert_eq!(rt; cached(stats), Some(Value::I64(-5)));
    // now the cached sum is added, whatever the column holds
    sum.accumulate(&one(Value::I64(7)), &mut stats)?;
    assert_eq!(rt; sum.final_scalar().value(), Some(Value::I64(-10)));
    let wrong = Scalar::primitive(Value::U64(1), false);
    let mut other = Statistics::try_new(Precision::Exact(wrong), Precision::Exact(0))?;
    assert_eq!(rt;
        sum.accumulate(&one(Value::I64(7)), &mut other),
        Err(Refusal::CachedSumType)
    );
    assert_eq!(rt; sum.final_scalar().value(), Some(Value::I64(-10)));
    // a sum that keeps NaNs puts an empty partial first, and leaves it when refused
    let mut kept = Accumulator::<Sum>::new(KEEP, plain(PType::F64));
    assert_eq!(rt;
        kept.accumulate(&one(Value::F64(1.0)), &mut other),
        Err(Refusal::CachedSumType)
    );
    assert!(rt; kept.take_partial().is_some());
    assert_eq!(rt; cached(other), Some(Value::U64(1)));
    Ok(())
}

// A pair whose left half is a pair. The left half of a refused column keeps what it took.
#[test]
fn a_pair_of_a_pair(rt: HostRuntime) -> Result<(), Fail> {
    let options = PairOptions(PairOptions(SKIP, ()), KEEP);
    let mut pair = Accumulator::<Both<Both<Sum, Count>, Sum>>::new(options, plain(PType::F64));
    let mut stats = Statistics::try_new(Precision::Absent, Precision::Exact(0))?;
    pair.accumulate(&one(Value::F64(1.5)), &mut stats)?;
    assert_eq!(rt; cached(stats), Some(Value::F64(1.5)));
    let ((sum, count), kept) = pair.final_scalar();
    assert_eq!(rt; sum.value(), Some(Value::F64(1.5)));
    assert_eq!(rt; kept.value(), Some(Value::F64(1.5)));
    assert_eq!(rt; count.value(), Some(Value::U64(1)));
    Ok(())
}

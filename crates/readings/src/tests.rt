use crate::totals::total_after;
use accumulators::Accumulator;
use aggregates::{Count, NumericalAggregateOpts, Sum};
use columns::Constant;
use dtype::{DType, PType, Refusal, Scalar, Statistics, Value};
use pairs::{PairOptions, Reported};
use runs::{Call, Line};
use std::test::Fail;

const SKIP: NumericalAggregateOpts = NumericalAggregateOpts { skip_nans: true };

const DTYPE: DType = DType {
    ptype: PType::I64,
    nullable: false,
};

fn line<S, A>(call: Call<Constant, S>) -> Line<Constant, S, A> {
    Line { call, answer: None }
}

// 7 three times goes to a site.
fn sevens<S>(site: usize) -> Call<Constant, S> {
    Call::Accumulate {
        site,
        column: Constant {
            scalar: Scalar::primitive(Value::I64(7), false),
            len: 3,
        },
        record: 0,
    }
}

// Sevens at both of two sites, and the second merged into the first.
#[test]
fn sevens_merged(rt: HostRuntime) -> Result<(), Fail> {
    let mut row = [
        Accumulator::<Sum>::new(SKIP, DTYPE),
        Accumulator::<Sum>::new(SKIP, DTYPE),
    ];
    let mut page = [
        line(sevens(0)),
        line(sevens(1)),
        line(Call::Merge { into: 0, from: 1 }),
    ];
    let mut records = [Statistics::default()];
    let sum = total_after(&mut row, SKIP, DTYPE, &mut page, &mut records, 0)?;
    assert_eq!(rt; sum.value(), Some(Value::I64(42)));
    Ok(())
}

#[test]
fn sevens_counted(rt: HostRuntime) -> Result<(), Fail> {
    let mut row = [Accumulator::<Count>::new((), DTYPE)];
    let mut page = [line(sevens(0)), line(sevens(1))];
    let mut records = [Statistics::default()];
    let count = total_after(&mut row, (), DTYPE, &mut page, &mut records, 0)?;
    assert_eq!(rt; count.value(), Some(Value::U64(3)));
    let none = total_after(&mut row, (), DTYPE, &mut page, &mut records, 1);
    assert!(rt; matches!(&none, Err(Refusal::NoSuchSite)));
    Ok(())
}

#[test]
fn nothing_reported(rt: HostRuntime) -> Result<(), Fail> {
    let options = PairOptions(SKIP, ());
    let mut row = [Accumulator::<Reported>::new(options, DTYPE)];
    let mut page = [line(sevens(0)), line(Call::Reset { site: 0 })];
    let mut records = [Statistics::default()];
    let reported = total_after(&mut row, options, DTYPE, &mut page, &mut records, 0)?;
    assert_eq!(rt; reported.value(), None);
    Ok(())
}

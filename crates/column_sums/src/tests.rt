use crate::add::add_column;
use columns::{Primitive, Values};
use std::alloc::{AllocError, Global};
use std::test::Fail;
use sums::SumState;

// 1, then zeros, then -1 at the entry `last`, added to the largest sum.
fn there_and_back(heap: Global, last: usize) -> Result<Option<SumState>, AllocError> {
    let mut values = vec![in heap; 1i32]?;
    values.resize(last, 0)?;
    values.push(-1)?;
    let column = Primitive::try_new(Values::I32(&values), false, &[]);
    Ok(column.ok().and_then(|column| add_column(&column, false, SumState::Signed(i64::MAX))))
}

#[test]
fn a_chunk_has_65536_values(rt: HostRuntime) -> Result<(), Fail> {
    let within = there_and_back(rt.alloc(), 65_535)?;
    assert_eq!(rt; within, Some(SumState::Signed(i64::MAX)));
    let past = there_and_back(rt.alloc(), 65_536)?;
    assert_eq!(rt; past, None);
    Ok(())
}

ghost use Rattle.std.specs.Prelude.{◌≡◌, length};
ghost use Rattle.readings.specs.NewBoards.{CalledAndRead, AnswerAllowed};

use accumulators::{Accumulator, Board};
use aggregates::AggregateColumns;
use columns::Column;
use dtype::{DType, Refusal, Statistics};
use runs::{Line, run};

// Makes a new board of the row, makes the calls of the page on it, and reads a site by its final answer.
pub fn read_after<V: AggregateColumns, C: Column>(
    row: &mut [Accumulator<V>],
    options: V::Options,
    dtype: DType,
    page: &mut [Line<C, V::PartialScalar, V::Answer>],
    records: &mut [Statistics],
    site: usize,
) -> Result<V::Answer, Refusal>
    ensures calls { CalledAndRead V V.AggregateFn.model C.Column.meaning (length row.old) options dtype page.old records.old page.new records.new site result }
    ensures reads { AnswerAllowed V V.AggregateFn.model C.Column.meaning (length row.old) options dtype page.old records.old page.new site result }
{
    let mut board = Board::new(row, options, dtype);
    run(&mut board, page, records);
    board.final_scalar(site)
}

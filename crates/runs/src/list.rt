ghost use Rattle.std.specs.Prelude.{◌≡◌};
ghost use Rattle.runs.specs.Calls.{ran};
ghost use Rattle.runs.specs.Laws.{EveryCallKeeps, SitesKeep};

use crate::call::Line;
use crate::one::perform;
use accumulators::Board;
use aggregates::AggregateColumns;
use columns::Column;
use dtype::Statistics;

// Makes the calls of a page in their order, whatever they answer, and writes each answer beside its call. The page and the
// records are two slices of different lengths.
pub fn run<V: AggregateColumns, C: Column>(
    board: &mut Board<'_, V>,
    page: &mut [Line<C, V::PartialScalar, V::Answer>],
    records: &mut [Statistics],
)
    ensures exact { ran V.AggregateFn.model C.Column.meaning page.old records.old board.old ≡ record { page = page.new; records = records.new; row = board.new } }
    ensures each { EveryCallKeeps V.AggregateFn.model C.Column.meaning page.old records.old board.old }
    ensures after { SitesKeep V.AggregateFn.model C.Column.meaning page.old records.old board.old page.new board.new }
{
    for line in page.iter_mut() {
        let answer = perform(board, &line.call, records);
        line.answer = Some(answer);
    }
}

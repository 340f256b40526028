ghost use Rattle.std.specs.Prelude.{◌≡◌};
ghost use Rattle.accumulators.specs.Boards.{board_accumulated};
ghost use Rattle.std.specs.List.{slice_get};
ghost use Rattle.runs.specs.Calls.{statistics_at, Recorded, performed};
ghost use Rattle.runs.specs.Laws.{CallKeeps};

use crate::call::{Call, Outcome};
use accumulators::Board;
use aggregates::AggregateColumns;
use columns::Column;
use dtype::{Refusal, Statistics};

// A column goes to a site with a record of the table, which is written back; past the table's end with one that says nothing.
fn accumulate_recorded<V: AggregateColumns, C: Column>(
    board: &mut Board<'_, V>,
    site: usize,
    column: &C,
    records: &mut [Statistics],
    at: usize,
) -> Result<(), Refusal>
    ensures { Recorded (board_accumulated V.AggregateFn.model (C.Column.meaning column.now) (statistics_at records.old at) board.old site (slice_get board.old site)) records.old at result records.new board.new }
{
    // Tested and indexed, since std's `get_mut` on a slice says nothing of what is written through it.
    if at < records.len() {
        board.accumulate(site, column, &mut records[at])
    } else {
        board.accumulate(site, column, &mut Statistics::default())
    }
}

// One call, through the board's methods. `perform` states the law of it once, and not at each of the seven ways out of here.
fn call_board<V: AggregateColumns, C: Column>(
    board: &mut Board<'_, V>,
    call: &Call<C, V::PartialScalar>,
    records: &mut [Statistics],
) -> Result<Outcome<V::PartialScalar, V::Answer>, Refusal>
    ensures { performed V.AggregateFn.model C.Column.meaning call.now records.old board.old ≡ record { answer = result; records = records.new; row = board.new } }
{
    let outcome = match call {
        Call::Accumulate {
            site,
            column,
            record,
        } => {
            accumulate_recorded(board, *site, column, records, *record)?;
            Outcome::Done
        }
        Call::Combine { site, scalar } => {
            board.combine_partials(*site, *scalar)?;
            Outcome::Done
        }
        Call::Merge { into, from } => {
            board.merge(*into, *from)?;
            Outcome::Done
        }
        Call::Flush { site } => Outcome::Flushed(board.flush(*site)?),
        Call::Finish { site } => Outcome::Finished(board.finish(*site)?),
        Call::Reset { site } => {
            board.reset(*site)?;
            Outcome::Done
        }
    };
    Ok(outcome)
}

// Makes one call on a board. Its record, if it has one, is written back to the table.
pub fn perform<V: AggregateColumns, C: Column>(
    board: &mut Board<'_, V>,
    call: &Call<C, V::PartialScalar>,
    records: &mut [Statistics],
) -> Result<Outcome<V::PartialScalar, V::Answer>, Refusal>
    ensures exact { performed V.AggregateFn.model C.Column.meaning call.now records.old board.old ≡ record { answer = result; records = records.new; row = board.new } }
    ensures keeps { CallKeeps V.AggregateFn.model C.Column.meaning call.now records.old board.old (record { answer = result; records = records.new; row = board.new }) }
{
    call_board(board, call, records)
}

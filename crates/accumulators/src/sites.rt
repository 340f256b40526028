// The calls of a board on the slice that it holds.
ghost use Rattle.std.specs.Prelude.{◌≡◌, length, replicate};
ghost use Rattle.std.specs.Fn.{FnOnceReturnsAtMut};
ghost use Rattle.std.specs.List.{slice_get};
ghost use Rattle.accumulators.specs.Accumulators.{unused};
ghost use Rattle.accumulators.specs.Boards.{CallsSite, board_accumulated, board_merged};

use crate::accumulator::Accumulator;
use aggregates::{AggregateColumns, AggregateFn};
use columns::Column;
use dtype::{DType, Refusal, Statistics};

// Makes every accumulator new. Tried: `fill_with`, which the check does not cover where the closure's result names a type
// parameter.
pub(crate) fn renew<V: AggregateFn>(sites: &mut [Accumulator<V>], options: V::Options, dtype: DType)
    ensures { sites.new ≡ replicate (length sites.old) (unused options dtype) }
{
    for site in sites {
        *site = Accumulator::new(options, dtype);
    }
}

// What a call answers at a site. Without the site it is refused. By an index: std says of `get_mut` on a slice
// nothing of what the slice ends as.
pub(crate) fn at_site<V: AggregateFn, R, F: FnOnce(&mut Accumulator<V>) -> R>(
    sites: &mut [Accumulator<V>],
    at: usize,
    call: F,
) -> Result<R, Refusal>
    requires { F.IsAlwaysCallable call }
    ensures { CallsSite (FnOnceReturnsAtMut F.FnOnce call) sites.old at (slice_get sites.old at) result sites.new }
{
    if at >= sites.len() {
        return Err(Refusal::NoSuchSite);
    }
    Ok(call(&mut sites[at]))
}

// The partial of one site, if any, moves to the other. By two indices: `get_disjoint_mut` is refused.
pub(crate) fn merge_at<V: AggregateFn>(
    sites: &mut [Accumulator<V>],
    into: usize,
    from: usize,
) -> Result<(), Refusal>
    ensures { board_merged V.AggregateFn.model sites.old into from (slice_get sites.old into) (slice_get sites.old from) ≡ record { answer = result; after = sites.new } }
{
    if into >= sites.len() || from >= sites.len() {
        return Err(Refusal::NoSuchSite);
    }
    if into == from {
        return Err(Refusal::SameSite);
    }
    let other = sites[from].take_partial();
    sites[into].fold_taken(other);
    Ok(())
}

// The column goes to the site with a copy of the record, which the call answers too: the check does not know what a closure
// leaves in a record that it borrows.
pub(crate) fn accumulate_at<V: AggregateColumns, C: Column>(
    sites: &mut [Accumulator<V>],
    at: usize,
    column: &C,
    stats: &mut Statistics,
) -> Result<(), Refusal>
    ensures { board_accumulated V.AggregateFn.model (C.Column.meaning column.now) stats.old sites.old at (slice_get sites.old at) ≡ record { answer = result; stats = stats.new; after = sites.new } }
{
    let before = *stats;
    let (answer, after) = at_site(sites, at, |site| {
        let mut record = before;
        let answer = site.accumulate(column, &mut record);
        (answer, record)
    })?;
    *stats = after;
    answer
}

ghost use Rattle.std.specs.Prelude.{◌≡◌, length};
ghost use Rattle.std.specs.List.{slice_get};
ghost use Rattle.accumulators.specs.Boards.{size_checked, new_row, board_accumulated, board_combined, board_merged, board_cleared, site_reset, site_scalar, site_answer, site_saturated};
ghost use Rattle.accumulators.specs.BoardSheets.{NewBoard, AccumulateKeeps, CombineKeeps, MergeKeeps, ClearKeeps, ScalarRead, AnswerRead, SaturationRead};

use crate::accumulator::Accumulator;
use crate::sites::{accumulate_at, at_site, merge_at, renew};
use aggregates::{AggregateColumns, AggregateFn, AggregateQuestions};
use columns::Column;
use dtype::{DType, Refusal, Statistics};
use std::marker::Model;

// The most sites that a board has. The file's limit stands in `visits`, which uses no board.
const MOST_SITES: usize = 1024;

// A board has 1 to 1,024 sites; a row of another size is refused.
pub fn check_size(sites: usize) -> Result<(), Refusal>
    ensures { result ≡ size_checked sites }
{
    if !(1..=MOST_SITES).contains(&sites) {
        return Err(Refusal::BoardSize);
    }
    Ok(())
}

// A row of accumulators of one aggregate, with one dtype and one set of options. A site is an accumulator of the row,
// known by its number from 0. The row is lent: a rule for boards.
#[derive(Drop)]
pub struct Board<'a, V: AggregateFn> {
    sites: &'a mut [Accumulator<V>],
}

// The sites, in order. A model is stated under the struct's own parameters, so not with `'_`.
impl<'a, V: AggregateFn> Model for Board<'a, V> {
    ghost use Rattle.std.specs.Prelude.{List};
    ghost use Rattle.accumulators.specs.declared.accumulator.Accumulator.{Accumulator};

    ghost Value = { List (Accumulator V V.Options V.Partial V.PartialScalar V.Answer) };

    ghost view = { λ b. b.sites.now };
}

impl<'a, V: AggregateFn> Board<'a, V> {
    // Makes every accumulator of the row new. Over a row of a size that is refused the board has no site.
    pub fn new(row: &'a mut [Accumulator<V>], options: V::Options, dtype: DType) -> Self
        ensures exact { result ≡ new_row (length row.old) options dtype }
        ensures empty { NewBoard V.AggregateFn.model options dtype result }
    {
        if check_size(row.len()).is_err() {
            return Board {
                sites: &mut row[0..0],
            };
        }
        renew(row, options, dtype);
        Board { sites: row }
    }

    // A partial scalar of the right dtype is merged into a site.
    pub fn combine_partials(&mut self, site: usize, scalar: V::PartialScalar) -> Result<(), Refusal>
        ensures exact { board_combined V.AggregateFn.model scalar self.old site (slice_get self.old site) ≡ record { answer = result; after = self.new } }
        ensures keeps { CombineKeeps V.AggregateFn.model self.old scalar site result self.new }
    {
        at_site(self.sites, site, |site| site.combine_partials(scalar))?
    }

    // The partial of one site, if any, is merged into another, and leaves the first.
    pub fn merge(&mut self, into: usize, from: usize) -> Result<(), Refusal>
        ensures exact { board_merged V.AggregateFn.model self.old into from (slice_get self.old into) (slice_get self.old from) ≡ record { answer = result; after = self.new } }
        ensures keeps { MergeKeeps V.AggregateFn.model self.old into from result self.new }
    {
        merge_at(self.sites, into, from)
    }

    pub fn reset(&mut self, site: usize) -> Result<(), Refusal>
        ensures exact { result ≡ site_reset (slice_get self.old site) }
        ensures after { self.new ≡ board_cleared self.old site (slice_get self.old site) }
        ensures keeps { ClearKeeps V.AggregateFn.model self.old site result self.new }
    {
        at_site(self.sites, site, |site| site.reset())
    }
}

impl<V: AggregateQuestions> Board<'_, V> {
    pub fn partial_scalar(&mut self, site: usize) -> Result<V::PartialScalar, Refusal>
        ensures exact { result ≡ site_scalar V.AggregateFn.model (slice_get self.old site) }
        ensures same { self.new ≡ self.old }
        ensures reads { ScalarRead V.AggregateFn.model self.old site result }
    {
        at_site(self.sites, site, |site| site.partial_scalar())
    }

    pub fn final_scalar(&mut self, site: usize) -> Result<V::Answer, Refusal>
        ensures exact { result ≡ site_answer V.AggregateFn.model (slice_get self.old site) }
        ensures same { self.new ≡ self.old }
        ensures reads { AnswerRead V.AggregateFn.model self.old site result }
    {
        at_site(self.sites, site, |site| site.final_scalar())
    }

    // Whether columns no longer matter to a site.
    pub fn is_saturated(&mut self, site: usize) -> Result<bool, Refusal>
        ensures exact { result ≡ site_saturated V.AggregateFn.model (slice_get self.old site) }
        ensures same { self.new ≡ self.old }
        ensures reads { SaturationRead V.AggregateFn.model self.old site result }
    {
        at_site(self.sites, site, |site| site.is_saturated())
    }

    // The partial scalar of a site; then it has no partial.
    pub fn flush(&mut self, site: usize) -> Result<V::PartialScalar, Refusal>
        ensures exact { result ≡ site_scalar V.AggregateFn.model (slice_get self.old site) }
        ensures after { self.new ≡ board_cleared self.old site (slice_get self.old site) }
        ensures reads { ScalarRead V.AggregateFn.model self.old site result }
        ensures keeps { ClearKeeps V.AggregateFn.model self.old site result self.new }
    {
        at_site(self.sites, site, |site| site.flush())
    }

    // The final answer of a site; then it has no partial.
    pub fn finish(&mut self, site: usize) -> Result<V::Answer, Refusal>
        ensures exact { result ≡ site_answer V.AggregateFn.model (slice_get self.old site) }
        ensures after { self.new ≡ board_cleared self.old site (slice_get self.old site) }
        ensures reads { AnswerRead V.AggregateFn.model self.old site result }
        ensures keeps { ClearKeeps V.AggregateFn.model self.old site result self.new }
    {
        at_site(self.sites, site, |site| site.finish())
    }
}

impl<V: AggregateColumns> Board<'_, V> {
    // A column with its record goes to a site.
    pub fn accumulate<C: Column>(
        &mut self,
        site: usize,
        column: &C,
        stats: &mut Statistics,
    ) -> Result<(), Refusal>
        ensures exact { board_accumulated V.AggregateFn.model (C.Column.meaning column.now) stats.old self.old site (slice_get self.old site) ≡ record { answer = result; stats = stats.new; after = self.new } }
        ensures keeps { AccumulateKeeps V.AggregateFn.model self.old (C.Column.meaning column.now) stats.old site result stats.new self.new }
    {
        accumulate_at(self.sites, site, column, stats)
    }
}

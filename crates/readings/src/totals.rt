ghost use Rattle.std.specs.Prelude.{◌≡◌, length};
ghost use Rattle.dtype.specs.declared.ptype.DType.{DType as DTypeAt};
ghost use Rattle.dtype.specs.declared.ptype.Family.{Family as FamilyAt};
ghost use Rattle.dtype.specs.Types.{family_of};
ghost use Rattle.aggregates.specs.declared.sum.Sum.{Sum as SumAt};
ghost use Rattle.aggregates.specs.declared.count.Count.{Count as CountAt};
ghost use Rattle.aggregates.specs.SumModel.{sum_model};
ghost use Rattle.aggregates.specs.CountModel.{count_model};
ghost use Rattle.aggregates.specs.Sheets.{Sheet};
ghost use Rattle.readings.specs.NewBoards.{sheet_after, CalledAndRead, HandedInTruth, SiteReads};
ghost use Rattle.readings.specs.Totals.{SumReads, CountReads, ReportedReads};
ghost use Rattle.readings.specs.PlainTotals.{sum_totals, count_totals};
ghost use Rattle.readings.specs.Reporting.{reported_reads};

use crate::after::read_after;
use accumulators::Accumulator;
use aggregates::{AggregateColumns, Count, NumericalAggregateOpts, Sum};
use columns::Column;
use dtype::{DType, Refusal, Scalar, Statistics};
use pairs::Reported;
use runs::Line;

// An aggregate whose final answer states a plain total: `reads` says what it is to be, by the family of the dtype and the
// sheet alone, and `totals` that the answer of every partial allowed for a sheet is that.
pub trait PlainTotals: AggregateColumns {
    ghost reads: { FamilyAt → Sheet Self.PartialScalar → Self.Answer → Type 0 };

    ghost totals: { (o : Self.Options) (d : DTypeAt) (s : Sheet Self.PartialScalar) (p : Self.Partial) → Self.AggregateFn.model.allowed o d s p → reads (family_of d.ptype) s (Self.AggregateFn.model.final o d p) };
}

impl PlainTotals for Sum {
    ghost reads = { SumReads };

    ghost totals = { sum_totals };
}

impl PlainTotals for Count {
    ghost reads = { λ g. CountReads };

    ghost totals = { count_totals };
}

impl PlainTotals for Reported {
    ghost reads = { ReportedReads };

    ghost totals = { reported_reads };
}

// What a site reads after the calls of a page on a new board, as a plain total.
pub fn total_after<V: PlainTotals, C: Column>(
    row: &mut [Accumulator<V>],
    options: V::Options,
    dtype: DType,
    page: &mut [Line<C, V::PartialScalar, V::Answer>],
    records: &mut [Statistics],
    site: usize,
) -> Result<V::Answer, Refusal>
    ensures calls { CalledAndRead V V.AggregateFn.model C.Column.meaning (length row.old) options dtype page.old records.old page.new records.new site result }
    ensures totals { HandedInTruth V V.AggregateFn.model C.Column.meaning (length row.old) options dtype page.old records.old → SiteReads (V.PlainTotals.reads (family_of dtype.ptype)) (length row.old) site (sheet_after C.Column.meaning (length row.old) dtype page.new site) result }
{
    read_after(row, options, dtype, page, records, site)
}

// `total_after` of sums: here a caller's options are of a type that has a name, so that a slip in them can be tried.
pub fn sum_after<C: Column>(
    row: &mut [Accumulator<Sum>],
    options: NumericalAggregateOpts,
    dtype: DType,
    page: &mut [Line<C, Scalar, Scalar>],
    records: &mut [Statistics],
    site: usize,
) -> Result<Scalar, Refusal>
    ensures calls { CalledAndRead SumAt sum_model C.Column.meaning (length row.old) options dtype page.old records.old page.new records.new site result }
    ensures totals { HandedInTruth SumAt sum_model C.Column.meaning (length row.old) options dtype page.old records.old → SiteReads (SumReads (family_of dtype.ptype)) (length row.old) site (sheet_after C.Column.meaning (length row.old) dtype page.new site) result }
{
    total_after(row, options, dtype, page, records, site)
}

// `total_after` of counts.
pub fn count_after<C: Column>(
    row: &mut [Accumulator<Count>],
    dtype: DType,
    page: &mut [Line<C, Scalar, Scalar>],
    records: &mut [Statistics],
    site: usize,
) -> Result<Scalar, Refusal>
    ensures calls { CalledAndRead CountAt count_model C.Column.meaning (length row.old) tt dtype page.old records.old page.new records.new site result }
    ensures totals { HandedInTruth CountAt count_model C.Column.meaning (length row.old) tt dtype page.old records.old → SiteReads CountReads (length row.old) site (sheet_after C.Column.meaning (length row.old) dtype page.new site) result }
{
    total_after(row, (), dtype, page, records, site)
}

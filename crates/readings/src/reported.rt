ghost use Rattle.std.specs.Prelude.{◌≡◌, length};
ghost use Rattle.dtype.specs.Types.{family_of};
ghost use Rattle.readings.specs.NewBoards.{sheet_after, CalledAndRead, HandedInTruth, SiteReads};
ghost use Rattle.readings.specs.Reports.{ReportedPair, reported_model};
ghost use Rattle.readings.specs.Totals.{ReportedReads};

use crate::totals::total_after;
use accumulators::Accumulator;
use aggregates::NumericalAggregateOpts;
use columns::Column;
use dtype::{DType, Refusal, Scalar, Statistics};
use pairs::{PairOptions, Reported};
use runs::Line;

// `total_after` of sums beside counts.
pub fn reported_after<C: Column>(
    row: &mut [Accumulator<Reported>],
    options: PairOptions<NumericalAggregateOpts, ()>,
    dtype: DType,
    page: &mut [Line<C, (Scalar, Scalar), Scalar>],
    records: &mut [Statistics],
    site: usize,
) -> Result<Scalar, Refusal>
    ensures calls { CalledAndRead ReportedPair reported_model C.Column.meaning (length row.old) options dtype page.old records.old page.new records.new site result }
    ensures totals { HandedInTruth ReportedPair reported_model C.Column.meaning (length row.old) options dtype page.old records.old → SiteReads (ReportedReads (family_of dtype.ptype)) (length row.old) site (sheet_after C.Column.meaning (length row.old) dtype page.new site) result }
{
    total_after(row, options, dtype, page, records, site)
}

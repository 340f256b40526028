ghost use Rattle.dtype.specs.declared.precision.Precision.TheVariants.{Absent};
ghost use Rattle.column_sums.specs.Examples.{bytes, unsigned_record, UnsignedExample, SignedExample, FloatExample};
ghost use Rattle.column_sums.specs.Records.{Truthful};

// Examples of records that are truthful of a column, and of records that are not. Answers the right sum of the first one,
// whose column has 1 and 2 with a null between them.
pub fn records_are_told_apart() -> u64
    ensures right_sum { Truthful bytes (unsigned_record result Absent) }
    ensures unsigned { UnsignedExample }
    ensures signed { SignedExample }
    ensures float { FloatExample }
{
    3
}

use sums::SumState;

// How numbers are aggregated: with skip_nans each NaN entry is passed over.
#[derive(Clone, Copy, PartialEq, Eq, Debug)]
pub struct NumericalAggregateOpts {
    pub skip_nans: bool,
}

// The accumulated state of a sum, or none where it is null: it overflowed, or a null came in. A type of the source.
#[derive(Clone, Copy, PartialEq, Eq, Debug)]
pub struct SumPartial {
    pub current: Option<SumState>,
}

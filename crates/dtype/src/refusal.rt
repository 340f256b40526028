ghost use Rattle.std.specs.Prelude.{◌≡◌};
ghost use Rattle.dtype.specs.Refusals.{number};

// Why a call was refused, by the number that docs/REFUSALS.md gives each case.
#[derive(Clone, Copy, PartialEq, Eq, Debug)]
pub enum Refusal {
    TypeCode = 1,
    WrongValue = 2,
    BitmapLength = 3,
    ColumnDType = 4,
    PartialDType = 5,
    CachedSumType = 6,
    BoardSize = 7,
    NoSuchSite = 8,
    SameSite = 9,
    UnequalAccumulators = 10,
}

impl From<Refusal> for u8 {
    ghost from_gives = { λ refusal code. code ≡ number refusal };

    fn from(refusal: Refusal) -> Self {
        refusal as u8
    }
}

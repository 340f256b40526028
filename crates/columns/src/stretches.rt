ghost use Rattle.std.specs.Prelude.{◌≡◌, ◌-◌};
ghost use Rattle.std.specs.Iterator.{at_most};
ghost use Rattle.columns.specs.Stretches.{StretchStep};
ghost use Rattle.columns.specs.Columns.{valid};

use crate::bitmap::Stretch;
use crate::column::Column;

// The stretches of a column from an entry on, one after the other.
#[derive_where(Clone, Copy)]
pub struct Stretches<'a, C> {
    column: &'a C,
    from: u64,
}

impl<'a, C: Column> Stretches<'a, C> {
    pub fn new(column: &'a C) -> Self
        ensures { (result.column ≡ column.entry) × (result.from ≡ 0) }
    {
        Self { column, from: 0 }
    }
}

impl<'a, C: Column> Iterator for Stretches<'a, C> {
    type Item = Stretch;

    ghost next_gives = { λ s r t. (t.column ≡ s.column) × StretchStep (valid (C.Column.meaning s.column.now)) (C.Column.meaning s.column.now).len s.from t.from r };

    ghost remaining = { λ s. at_most ((C.Column.meaning s.column.now).len - s.from) };

    // Inlined: loops over many short stretches would pay as much for the call as for a stretch.
    #[inline]
    fn next(&mut self) -> Option<Self::Item> {
        let stretch = self.column.next_stretch(self.from)?;
        self.from = stretch.end;
        Some(stretch)
    }
}

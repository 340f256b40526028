ghost use Rattle.std.specs.Prelude.{◌≡◌, None};
ghost use Rattle.column_sums.specs.ColumnSums.{column_sum};
ghost use Rattle.aggregates.specs.Guards.{put_back};
ghost use Rattle.aggregates.specs.SumModel.{holding};

use crate::sum_partial::SumPartial;
use column_sums::add_column;
use columns::Column;
use sums::SumState;

// A partial and the state that was taken out of it, none once an overflow is told.
#[derive(Clone, Copy)]
struct Slot {
    partial: SumPartial,
    taken: Option<SumState>,
}

// Puts the state back when summing ends, unless told of an overflow.
struct Guard<'a> {
    slot: &'a mut Slot,
}

impl Guard<'_> {
    fn tell_overflow(&mut self)
        ensures same_reference { self.new.slot.ghost_name ≡ self.old.slot.ghost_name }
        ensures none_taken { self.new.slot.now ≡ record { partial = self.old.slot.now.partial; taken = None } }
    {
        self.slot.taken = None;
    }
}

impl Drop for Guard<'_> {
    fn drop(self)
        ensures { self.exit.0.now ≡ put_back self.entry.slot.now.taken self.entry.slot.now }
    {
        let Guard { slot } = self;
        if let Some(state) = slot.taken {
            slot.partial.current = Some(state);
        }
    }
}

// The column added to a state. An overflow leaves null.
pub(crate) fn sum_column<C: Column>(column: &C, skip_nans: bool, state: SumState) -> SumPartial
    ensures { result ≡ holding (column_sum (C.Column.meaning column.now) skip_nans state) }
{
    let mut slot = Slot {
        partial: SumPartial { current: None },
        taken: Some(state),
    };
    {
        let mut guard = Guard { slot: &mut slot };
        // Not one assignment of the answer: it is a rule that the guard is told of an overflow.
        match add_column(column, skip_nans, state) {
            Some(sum) => guard.slot.taken = Some(sum),
            None => guard.tell_overflow(),
        }
    }
    slot.partial
}

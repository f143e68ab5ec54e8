// Who is late in a front.
ghost use Rattle.std.specs.Prelude.{◌-◌, Decides};
ghost use Rattle.policy.specs.Laws.{Choice};
ghost use Rattle.plan.specs.Contents.{contents, Known};
ghost use Rattle.model.specs.Runs.{Misses};
ghost use Rattle.checker.specs.Fronts.{Front, LateInOne, Lowest, WorkingInOne};

use crate::moments::Moment;
use gather::tables::Table;
use model::states::State;

// Whether the handler of this number has time left in one of the rows.
fn working_in_one(rows: &[State], number: u8) -> bool
    ensures { Decides result (WorkingInOne rows.now number) }
{
    rows.iter().any(|state| state.time_left(number) > 0)
}

// Whether the handler of this number is late in one of the rows.
fn late_in_one(moment: &Moment, rows: &[State], number: u8) -> bool
    ensures { Decides result (Known (contents moment.now.plan.now) number
        × LateInOne (contents moment.now.plan.now) moment.now.time rows.now (number - 1)) }
{
    // Few handlers are due at a time, and the rows are many.
    moment.due(number) && working_in_one(rows, number)
}

// The lowest number that is late in one of the rows.
fn lowest_late(moment: &Moment, rows: &[State]) -> Option<u8>
    ensures { Lowest
        (LateInOne (contents moment.now.plan.now) moment.now.time rows.now) result }
{
    for place in 0..moment.plan().count() {
        if late_in_one(moment, rows, place + 1) {
            return Some(place + 1);
        }
    }
    None
}

/// The lowest number that is late at this time in a state of the front, if one is.
pub fn first_late<W: Table<Item = State>>(moment: &Moment, front: &W) -> Option<u8>
    ensures rows { Lowest
        (LateInOne (contents moment.now.plan.now) moment.now.time (W.members front.now)) result }
    ensures misses { (D : Choice)
        → Front (contents moment.now.plan.now) D moment.now.time (W.members front.now)
        → Lowest (Misses (contents moment.now.plan.now) D moment.now.time) result }
{
    // Where nobody starts, no period ends.
    if moment.calm() > 0 {
        return None;
    }
    lowest_late(moment, front.rows())
}

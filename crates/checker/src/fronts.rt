// Fronts: the states of one time in a table, and from them those of the next time in another.

ghost use Rattle.std.specs.Prelude.{◌≡◌, ◌+◌, [], MatchResult};
ghost use Rattle.plan.specs.Contents.{contents};
ghost use Rattle.model.specs.Runs.{StateAt};
ghost use Rattle.model.specs.Theorems.{BeginningsGoOn, UnitsRepeat};
ghost use Rattle.model.specs.Verdicts.{Outnumber};
ghost use Rattle.checker.specs.Moments.{Prepared};
ghost use Rattle.checker.specs.Fronts.{StepsTo, FollowsOne, Joins, Front};

mod beginning;
mod idleness;
mod lateness;

use crate::following::Successors;
use crate::moments::Moment;
pub use beginning::begin;
use gather::tables::{Inserted, Table};
pub use idleness::is_idle;
pub use lateness::first_late;
use model::states::State;
use policy::disciplines::Discipline;

/// There are more states than rows.
#[derive(Clone, Copy)]
pub struct NoRoom;

// Puts in a state.
fn put<W: Table<Item = State>>(state: &State, back: &mut W) -> Result<(), NoRoom>
    ensures joins { Joins (λ x. x ≡ state.now)
        (W.room back.old) (W.members back.old) result (W.members back.new) }
    ensures same_room { W.room back.new ≡ W.room back.old }
    ensures frame { W.extended back.old back.new }
{
    match back.insert(state) {
        Inserted::New | Inserted::There => Ok(()),
        Inserted::Full => Err(NoRoom),
    }
}

// Puts in all states that follow one.
fn spread_all<D: Discipline, W: Table<Item = State>>(
    moment: &Moment,
    d: &D,
    state: &State,
    back: &mut W,
) -> Result<(), NoRoom>
    requires { Prepared (D.first d.now) moment.now }
    ensures joins { Joins
        (StepsTo (contents moment.now.plan.now) (D.first d.now) moment.now.time state.now)
        (W.room back.old) (W.members back.old) result (W.members back.new) }
    ensures same_room { W.room back.new ≡ W.room back.old }
    ensures frame { W.extended back.old back.new }
{
    for next in Successors::of(moment, d, *state) {
        put(&next, back)?;
    }
    Ok(())
}

// Puts in the states that follow one. Where there is but one, no room for others is made ready.
fn spread<D: Discipline, W: Table<Item = State>>(
    moment: &Moment,
    d: &D,
    state: &State,
    back: &mut W,
) -> Result<(), NoRoom>
    requires { Prepared (D.first d.now) moment.now }
    ensures joins { Joins
        (StepsTo (contents moment.now.plan.now) (D.first d.now) moment.now.time state.now)
        (W.room back.old) (W.members back.old) result (W.members back.new) }
    ensures same_room { W.room back.new ≡ W.room back.old }
    ensures frame { W.extended back.old back.new }
{
    match moment.follower(d, *state) {
        Some(next) => put(&next, back),
        None => spread_all(moment, d, state, back),
    }
}

/// Puts into `back`, emptied first, the states that can follow those of `front` at this time.
pub fn advance<D: Discipline, W: Table<Item = State>>(
    moment: &mut Moment,
    d: &D,
    front: &W,
    back: &mut W,
) -> Result<(), NoRoom>
    ensures joins { Joins
        (FollowsOne (contents moment.old.plan.now) (D.first d.now) moment.old.time
        (W.members front.now))
        (W.room back.old) [] result (W.members back.new) }
    ensures onward { Front (contents moment.old.plan.now) (D.first d.now) moment.old.time (W.members front.now)
        → MatchResult result
        (λ _. Front (contents moment.old.plan.now) (D.first d.now)
        (moment.old.time + 1) (W.members back.new))
        (λ _. Outnumber
        (StateAt (contents moment.old.plan.now) (D.first d.now) (moment.old.time + 1))
        (W.room back.old)) }
    ensures of_plan { moment.new.plan.now ≡ moment.old.plan.now }
    ensures clock { moment.new.time ≡ moment.old.time }
    ensures same_room { W.room back.new ≡ W.room back.old }
    ensures frame { (s : W) × W.emptied back.old s × W.extended s back.new }
    ensures goes_on { BeginningsGoOn }
    ensures repeats { UnitsRepeat }
{
    back.clear();
    moment.prepare(d, front.rows().len());
    for state in front.rows() {
        spread(moment, d, state, back)?;
    }
    Ok(())
}

// The least and the most that each handler can have left.
ghost use Rattle.std.specs.Prelude.{◌≡◌, ℕ, ◌-◌, slice_index};
ghost use Rattle.plan.specs.Contents.{contents, count};
ghost use Rattle.model.specs.Theorems.{ChoicesTell};
ghost use Rattle.checker.specs.Reaching.{ReachesTo};
ghost use Rattle.checker.specs.Moments.{Prepared};
ghost use Rattle.checker.specs.Successors.{SuccessorsOf};

use crate::following::Successors;
use crate::moments::Moment;
use model::states::State;
use policy::disciplines::Discipline;
use std::array;

// The states after the starts of a time with all times the shortest, and with all the longest.
#[derive(Clone, Copy)]
struct Extent {
    low: State,
    high: State,
}

// Makes the starts of a time, with the shortest times in one state and the longest in the other.
fn reach(moment: &Moment, state: &State) -> Extent
    ensures { ReachesTo (contents moment.now.plan.now) moment.now.time state.now.left
        (count (contents moment.now.plan.now)) result.low.left result.high.left }
{
    if moment.starters == 0 {
        return Extent {
            low: *state,
            high: *state,
        };
    }
    let mut low = *state;
    let mut high = *state;
    for number in 1..=moment.plan.count() {
        if let Some(handler) = moment.starter(number) {
            let place = number as usize - 1;
            low.left[place] = handler.shortest;
            high.left[place] = handler.longest;
        }
    }
    Extent { low, high }
}

// `high` less what `low` lost when it became `served`.
fn lowered(high: &State, low: &State, served: &State) -> State
    ensures { (i : ℕ) → slice_index result.left i
        ≡ slice_index high.now.left i
        - (slice_index low.now.left i - slice_index served.now.left i) }
{
    let left = array::from_fn(|i| {
        let lost = low.left[i].saturating_sub(served.left[i]);
        high.left[i].saturating_sub(lost)
    });
    State { left }
}

impl Successors {
    /// The states that can follow a state at a time, one for each combination of times chosen by
    /// the handlers that start then.
    pub fn of<D: Discipline>(moment: &Moment, d: &D, state: State) -> Successors
        ensures all { Prepared (D.first d.now) moment.now →
            SuccessorsOf (contents moment.now.plan.now) (D.first d.now)
            moment.now.time state result }
        ensures tell { ChoicesTell }
    {
        let extent = reach(moment, &state);
        let low = moment.serve(d, extent.low);
        let high = lowered(&extent.high, &extent.low, &low);
        Successors {
            next: Some(low),
            low,
            high,
        }
    }
}

// Serving in an order: on each core the first that is ready loses one unit.
ghost use Rattle.std.specs.Prelude.{◌≡◌, ◌<◌, length, Decides};
ghost use Rattle.plan.specs.Contents.{contents, count};
ghost use Rattle.model.specs.Units.{Ready, Served};
ghost use Rattle.model.specs.Memory.{times, RestSame};
ghost use Rattle.checker.specs.Orders.{AllDone, LostBy};
ghost use Rattle.checker.specs.Rows.{Below};
ghost use Rattle.checker.specs.Prepared.{IsPrepared};

use crate::priorities::Priorities;
use crate::serving::serve;
use model::states::State;
use policy::disciplines::Discipline;

// Whether none of the handlers at these places, a bit for each, has time left.
fn all_done(state: &State, places: u64) -> bool
    ensures { Decides result (AllDone state.now.left places) }
{
    let mut rest = places;
    while rest != 0 {
        let place = rest.trailing_zeros();
        if state.left[place as usize] > 0 {
            return false;
        }
        rest &= !(1 << place);
    }
    true
}

impl Priorities<'_> {
    // Whether the handler at the place is ready.
    fn ready(&self, state: &State, place: u8) -> bool
        requires { place < count (contents self.now.plan.now) }
        ensures { Decides result (Ready (contents self.now.plan.now)
            (times (contents self.now.plan.now) state.now) place) }
    {
        let before = &self.before;
        state.left[place as usize] > 0 && all_done(state, before[place as usize])
    }

    // The state in which the first of each core that is ready has lost one unit.
    fn serve_in_order(&self, state: State) -> State
        ensures { LostBy (contents self.now.plan.now) (times (contents self.now.plan.now) state)
            self.now.places.items state.left (length self.now.places.items) result.left }
    {
        let mut served = state;
        // By the number of the core, from 1.
        let mut busy = [false; 9];
        for place in self.places.as_slice() {
            let core = self.cores[*place as usize] as usize;
            // Who is ready is asked of the state as it was when the unit began.
            if !busy[core] && self.ready(&state, *place) {
                served.left[*place as usize] -= 1;
                busy[core] = true;
            }
        }
        served
    }

    /// The state after the unit that begins at `t`, once the starts of `t` have been made.
    pub(crate) fn serve<D: Discipline>(&self, d: &D, t: u64, state: State) -> State
        ensures served { IsPrepared (D.first d.now) t self.now →
            Served (contents self.now.plan.now) (D.first d.now) t
            (times (contents self.now.plan.now) state) (times (contents self.now.plan.now) result) }
        ensures fewer { Below result.left state.left }
        ensures rest { RestSame (contents self.now.plan.now) state result }
    {
        if self.sorted {
            self.serve_in_order(state)
        } else {
            serve(self.plan, d, t, state)
        }
    }
}

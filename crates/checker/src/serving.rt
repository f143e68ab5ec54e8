// Serving: on each core the handler that runs loses one unit.
ghost use Rattle.plan.specs.Contents.{contents};
ghost use Rattle.model.specs.Units.{Served};
ghost use Rattle.model.specs.Theorems.{OneRuns, SomeoneIsReady};
ghost use Rattle.model.specs.Memory.{times, RestSame};

use crate::choosing::{firsts, number_on};
use model::states::State;
use plan::plans::Plan;
use policy::cores::Core;
use policy::disciplines::Discipline;

/// The state after the unit that begins at `t`, once the starts of `t` have been made.
pub fn serve<D: Discipline>(plan: &Plan, d: &D, t: u64, state: State) -> State
    ensures served { Served (contents plan.now) (D.first d.now) t
        (times (contents plan.now) state) (times (contents plan.now) result) }
    ensures rest { RestSame (contents plan.now) state result }
    ensures one_runs { OneRuns }
    ensures someone_ready { SomeoneIsReady }
{
    // All cores choose by the state as it was when the unit began.
    let first = firsts(plan, d, t, &state);
    let mut served = state;
    for core in Core::all() {
        if let Some(number) = number_on(&first, core) {
            served.left[number as usize - 1] -= 1;
        }
    }
    served
}

// Starts with given times: what happened, or might have, in place of everything that can.
ghost use Rattle.std.specs.Prelude.{◌≡◌, ◌≤◌, ◌∷◌, length, drop, IfOk, MatchResult};
ghost use Rattle.gather.specs.Levels.{Tells};
ghost use Rattle.plan.specs.Contents.{contents, count};
ghost use Rattle.model.specs.Units.{Started, Step};
ghost use Rattle.model.specs.Memory.{times, RestSame};
ghost use Rattle.checker.specs.Given.{FitsHandler, RefusesTime, Given, used_up, StopsAt, GivenThenServed};

use crate::serving::serve;
use crate::starting::starter;
use model::states::State;
use plan::handlers::Handler;
use plan::plans::Plan;
use policy::disciplines::Discipline;
use thiserror::Error;

/// Why a list of times does not do: it ends before the start of a handler, or its next time is below the shortest or
/// above the longest time of the handler that starts.
#[derive(Clone, Copy, PartialEq, Eq, Debug, Error)]
pub enum Misfit {
    #[error("no time is left for the start of handler {number}")]
    Ended { number: u8 },
    #[error("handler {number} cannot take the time {time}")]
    Outside { number: u8, time: u16 },
}

/// A state, and what is left of the list whose first times were used for it.
#[derive(Clone, Copy)]
pub struct Taken<'l> {
    pub state: State,
    pub rest: &'l [u16],
}

// The next time of the list, if the handler can take it, and what is left of the list then.
fn next_time(handler: Handler, number: u8, list: &[u16]) -> Result<(u16, &[u16]), Misfit>
    ensures { MatchResult result (λ x. (list.now ≡ x.0 ∷ x.1.now) × FitsHandler handler x.0) (RefusesTime handler number list.now 0) }
{
    let [time, rest @ ..] = list else {
        return Err(Misfit::Ended { number });
    };
    if !(handler.shortest..=handler.longest).contains(time) {
        return Err(Misfit::Outside {
            number,
            time: *time,
        });
    }
    Ok((*time, rest))
}

/// Makes the starts of `t` with the next times of the list, in the order of the handlers' numbers.
pub fn start_with<'l>(
    plan: &Plan,
    t: u64,
    mut state: State,
    list: &'l [u16],
) -> Result<Taken<'l>, Misfit>
    ensures given { MatchResult result (λ x. Given (contents plan.now) t list.now state.left (count (contents plan.now)) x.state.left (used_up list.now x.rest.now)) (StopsAt (contents plan.now) t list.now state.left) }
    ensures started { IfOk result (λ x. Started (contents plan.now) t (times (contents plan.now) state) (times (contents plan.now) x.state)) }
    ensures rest { IfOk result (λ x. RestSame (contents plan.now) state x.state) }
    ensures few { IfOk result (λ x. length x.rest.now ≤ length list.now) }
    ensures unused { IfOk result (λ x. x.rest.now ≡ drop (used_up list.now x.rest.now) list.now) }
    ensures told { Tells ⟦<Misfit as PartialEq>⟧.eq }
{
    let mut rest = list;
    for number in 1..=plan.count() {
        if let Some(handler) = starter(plan, number, t) {
            let (time, others) = next_time(handler, number, rest)?;
            state.left[number as usize - 1] = time;
            rest = others;
        }
    }
    Ok(Taken { state, rest })
}

/// The state one unit after `t`, where the handlers that start at `t` take the next times of the list.
pub fn unit_with<'l, D: Discipline>(
    plan: &Plan,
    d: &D,
    t: u64,
    state: State,
    list: &'l [u16],
) -> Result<Taken<'l>, Misfit>
    ensures steps { IfOk result (λ x. Step (contents plan.now) (D.first d.now) t (times (contents plan.now) state) (times (contents plan.now) x.state)) }
    ensures given { MatchResult result (λ x. GivenThenServed (contents plan.now) (D.first d.now) t list.now state x.state (used_up list.now x.rest.now)) (StopsAt (contents plan.now) t list.now state.left) }
    ensures few { IfOk result (λ x. length x.rest.now ≤ length list.now) }
    ensures unused { IfOk result (λ x. x.rest.now ≡ drop (used_up list.now x.rest.now) list.now) }
{
    let taken = start_with(plan, t, state, list)?;
    Ok(Taken {
        state: serve(plan, d, t, taken.state),
        ..taken
    })
}

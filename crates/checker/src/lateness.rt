// Who is late.
ghost use Rattle.std.specs.Prelude.{◌+◌, ◌-◌, ◌≤◌, Decides};
ghost use Rattle.std.specs.Int.{◌∣◌};
ghost use Rattle.plan.specs.Contents.{contents, Known};
ghost use Rattle.model.specs.Runs.{Late};
ghost use Rattle.model.specs.Memory.{times};

use crate::starting::begins;
use model::states::State;
use plan::handlers::Handler;
use plan::plans::Plan;

// Whether a period of the handler ends at `t`.
fn falls_due(handler: Handler, t: u64) -> bool
    ensures { Decides result ((handler.offset + handler.period ≤ t) × (handler.period ∣ t - handler.offset)) }
{
    t >= handler.offset as u64 + handler.period as u64 && begins(handler, t)
}

/// Whether the handler of this number is late at `t` in this state: one of its periods ends, and it has time left.
pub fn late(plan: &Plan, t: u64, state: &State, number: u8) -> bool
    ensures { Decides result (Known (contents plan.now) number × Late (contents plan.now) t (times (contents plan.now) state.now) (number - 1)) }
{
    plan.handler(number).is_some_and(|handler| state.time_left(number) > 0 && falls_due(handler, t))
}

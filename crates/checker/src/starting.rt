// Who starts.
ghost use Rattle.std.specs.Prelude.{◌≡◌, ◌-◌, ◌≤◌, Decides, MatchOption};
ghost use Rattle.std.specs.Int.{◌∣◌};
ghost use Rattle.plan.specs.Contents.{contents, at, Known};
ghost use Rattle.model.specs.Units.{Starts};

use plan::handlers::Handler;
use plan::plans::Plan;

// Whether a period of the handler begins at `t`.
pub(crate) fn begins(handler: Handler, t: u64) -> bool
    ensures { Decides result ((handler.offset ≤ t) × (handler.period ∣ t - handler.offset)) }
{
    let offset = handler.offset as u64;
    t >= offset && (t - offset).is_multiple_of(handler.period as u64)
}

// The handler of this number, if it starts at `t`.
pub(crate) fn starter(plan: &Plan, number: u8, t: u64) -> Option<Handler>
    ensures { MatchOption result (Known (contents plan.now) number × Starts (contents plan.now) t (number - 1) → ⊥) (λ h. Known (contents plan.now) number × Starts (contents plan.now) t (number - 1) × (h ≡ at (contents plan.now) (number - 1))) }
{
    plan.handler(number).filter(|handler| begins(*handler, t))
}

/// Whether the handler of this number starts at `t`; not where there is none.
pub fn starts(plan: &Plan, number: u8, t: u64) -> bool
    ensures { Decides result (Known (contents plan.now) number × Starts (contents plan.now) t (number - 1)) }
{
    starter(plan, number, t).is_some()
}

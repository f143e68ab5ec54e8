// The plan of a sample, by the public calls.
ghost use Rattle.std.specs.Prelude.{◌≡◌, IfOk, IsOk, OnOk, MatchResult};
ghost use Rattle.plan.specs.Contents.{contents, empty};
ghost use Rattle.samples.specs.Plans.{called, Taken, AllTaken, Refuses, FirstRefused, plan_of};

use crate::{Call, Sample};
use plan::plans::Plan;
use plan::refusals::Refusal;

fn make(plan: &mut Plan, call: Option<Call>) -> Result<(), Refusal>
    ensures holds { OnOk result (contents plan.new ≡ called (contents plan.old) call) }
    ensures taken { MatchResult result (λ _. Taken (contents plan.old) call) (Refuses (contents plan.old) call) }
    ensures accepted { Taken (contents plan.old) call → IsOk result }
{
    match call {
        Some(Call::Register(handler)) => {
            plan.register(handler)?;
        }
        Some(Call::Join(first, second)) => plan.join(first, second)?,
        None => {}
    }
    Ok(())
}

impl Sample {
    /// A new plan with the calls made, or why the first refused call is refused. Those of the table's samples are all accepted.
    pub fn plan(&self) -> Result<Plan, Refusal>
        ensures holds { IfOk result (λ p. contents p ≡ plan_of self.now) }
        ensures taken { MatchResult result (λ _. AllTaken empty self.now.calls) (FirstRefused empty self.now.calls) }
        ensures accepted { AllTaken empty self.now.calls → IsOk result }
    {
        let mut plan = Plan::new();
        for call in self.calls {
            make(&mut plan, call)?;
        }
        Ok(plan)
    }
}

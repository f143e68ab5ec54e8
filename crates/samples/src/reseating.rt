// Plans whose verdict turns on where a handler was moved.
use checker::check;
use model::states::State;
use model::verdicts::Verdict;
use plan::handlers::Handler;
use plan::plans::Plan;
use plan::refusals::Refusal;
use policy::codes::{Code, code_bank};
use std::process::Abort;
use std::test::Fail;

// Two handlers that each work 2 of every 3 units, both on core 1.
fn two_on_one_core() -> Result<Plan, Refusal> {
    let handler = Handler {
        period: 3,
        offset: 0,
        shortest: 2,
        longest: 2,
        core: 1,
    };
    let mut plan = Plan::new();
    plan.register(handler)?;
    plan.register(handler)?;
    Ok(plan)
}

fn assert_verdict(rt: &impl Abort, plan: &Plan, verdict: Verdict) {
    let bank = code_bank(&[Code::FixedPriority; 8]);
    let (mut front, mut back) = ([State::new(); 4], [State::new(); 4]);
    let mut marks = [State::new(); 4];
    let found = check(plan, &bank, &mut front, &mut back, &mut marks);
    assert_eq!(rt; found, Ok(verdict));
}

#[test]
fn a_check_sees_the_last_core(rt: HostRuntime) -> Result<(), Fail> {
    let mut plan = two_on_one_core()?;
    let late = Verdict::Missed { time: 3, number: 2 };
    let kept = Verdict::Kept {
        rounds: 1,
        marks: 1,
    };
    assert_verdict(&rt, &plan, late);
    plan.reseat(2, 2)?;
    assert_verdict(&rt, &plan, kept);
    plan.reseat(1, 2)?;
    assert_verdict(&rt, &plan, late);
    plan.reseat(1, 8)?;
    assert_verdict(&rt, &plan, kept);
    Ok(())
}

// Each plan is made by its calls, and read back.
use crate::samples;
use std::test::Fail;

#[test]
fn the_calls_make_the_plans(rt: HostRuntime) -> Result<(), Fail> {
    let handlers = [0, 0, 1, 5, 5, 5, 5, 4, 4, 2, 2, 4];
    let rounds = [1, 1, 2, 3, 3, 4, 4, 12, 12, 4, 4, 4];
    for (sample, (count, round)) in samples().iter().zip(handlers.iter().zip(rounds.iter())) {
        let plan = sample.plan()?;
        assert_eq!(rt; plan.count(), *count);
        assert_eq!(rt; plan.round(), *round);
    }
    Ok(())
}

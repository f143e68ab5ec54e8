// Every refusal at its edge and in its order.
use crate::handlers::Handler;
use crate::plans::Plan;
use crate::refusals::Refusal;
use std::test::Fail;

#[derive(Clone, Copy)]
enum Call {
    New,
    // period, offset, shortest, longest, core
    Register(u16, u16, u16, u16, u8),
    Join(u8, u8),
    Reseat(u8, u8),
}

// Calls made one after another, each with the number of its refusal, or `None` where it is accepted.
const CALLS: [(Call, Option<u8>); 50] = [
    // each field at its edges
    (Call::New, None),
    (Call::Register(0, 3, 1, 2, 1), Some(2)),
    (Call::Register(10, 3, 0, 2, 1), Some(3)),
    (Call::Register(10, 3, 3, 2, 1), Some(3)),
    (Call::Register(10, 3, 1, 2, 0), Some(4)),
    (Call::Register(10, 3, 1, 2, 9), Some(4)),
    (Call::Register(1, 0, 1, 1, 1), None),
    (Call::Register(65535, 65535, 65535, 65535, 8), None),
    // the first test that holds is answered
    (Call::Register(0, 0, 0, 0, 0), Some(2)),
    (Call::Register(65534, 0, 0, 0, 0), Some(3)),
    (Call::Register(65534, 0, 1, 1, 0), Some(4)),
    (Call::Register(65534, 0, 1, 1, 1), Some(5)),
    // no 16-bit periods have the round 16,777,216, a power of two: 4095 × 4097 is one less, 673 × 24929 one more
    (Call::New, None),
    (Call::Register(4095, 0, 1, 1, 1), None),
    (Call::Register(4097, 0, 1, 1, 1), None),
    (Call::Register(2, 0, 1, 1, 1), Some(5)),
    (Call::New, None),
    (Call::Register(673, 0, 1, 1, 1), None),
    (Call::Register(24929, 0, 1, 1, 1), Some(5)),
    // joins need two handlers of one timing
    (Call::New, None),
    (Call::Register(10, 3, 1, 2, 1), None),
    (Call::Register(10, 3, 1, 2, 2), None),
    (Call::Register(10, 3, 1, 2, 3), None),
    (Call::Register(20, 3, 1, 2, 1), None),
    (Call::Register(10, 4, 1, 2, 1), None),
    // numbers that no handler has come first, also where the two are one
    (Call::Join(0, 0), Some(6)),
    (Call::Join(6, 6), Some(6)),
    (Call::Join(4, 6), Some(6)),
    (Call::Join(0, 1), Some(6)),
    (Call::Join(6, 1), Some(6)),
    (Call::Join(1, 0), Some(6)),
    (Call::Join(1, 6), Some(6)),
    (Call::Join(1, 4), Some(7)),
    (Call::Join(5, 1), Some(7)),
    // circles of one, two and three; a join made again. No pair has other times and closes a circle too: joins keep times
    (Call::Join(1, 1), Some(8)),
    (Call::Join(1, 2), None),
    (Call::Join(1, 2), None),
    (Call::Join(2, 1), Some(8)),
    (Call::Join(2, 3), None),
    (Call::Join(3, 1), Some(8)),
    (Call::Join(1, 3), None),
    // other cores; a number that no handler has comes first
    (Call::Reseat(0, 9), Some(6)),
    (Call::Reseat(6, 9), Some(6)),
    (Call::Reseat(5, 0), Some(4)),
    (Call::Reseat(5, 9), Some(4)),
    (Call::Reseat(5, 8), None),
    (Call::Reseat(5, 8), None),
    (Call::Reseat(1, 1), None),
    (Call::Join(3, 2), Some(8)),
    (Call::Join(5, 5), Some(8)),
];

fn make(plan: &mut Plan, call: Call) -> Result<(), Refusal> {
    match call {
        Call::New => *plan = Plan::new(),
        Call::Register(period, offset, shortest, longest, core) => {
            plan.register(Handler {
                period,
                offset,
                shortest,
                longest,
                core,
            })?;
        }
        Call::Join(a, b) => plan.join(a, b)?,
        Call::Reseat(number, core) => plan.reseat(number, core)?,
    }
    Ok(())
}

// The number of the call's refusal, or `None` where it is accepted.
fn answer(plan: &mut Plan, call: Call) -> Option<u8> {
    make(plan, call).err().map(|refusal| refusal.number())
}

#[test]
fn calls_answer_the_first_test_that_holds(rt: HostRuntime) {
    let mut plan = Plan::new();
    for (call, number) in CALLS {
        assert_eq!(rt; answer(&mut plan, call), number);
    }
}

// So many handlers of one timing, each joined before the next.
fn chain_of(count: u8) -> Result<Plan, Refusal> {
    let mut plan = Plan::new();
    for number in 0..count {
        make(&mut plan, Call::Register(673, 3, 1, 2, 1))?;
        if number > 0 {
            plan.join(number, number.saturating_add(1))?;
        }
    }
    Ok(plan)
}

#[test]
fn the_65th_handler_is_refused_before_all_else(rt: HostRuntime) -> Result<(), Fail> {
    let mut plan = chain_of(64)?;
    assert_eq!(rt; plan.count(), 64);
    // handlers that the tests 2 to 5 would refuse, and one that none would
    for (period, shortest, core) in [
        (0, 1, 1),
        (673, 0, 1),
        (673, 1, 0),
        (24929, 1, 1),
        (673, 1, 1),
    ] {
        assert_eq!(rt;
            answer(&mut plan, Call::Register(period, 0, shortest, 1, core)),
            Some(1)
        );
    }
    assert_eq!(rt; answer(&mut plan, Call::Register(0, 0, 0, 0, 0)), Some(1));
    assert_eq!(rt; plan.count(), 64);
    Ok(())
}

#[test]
fn a_circle_of_64_is_refused(rt: HostRuntime) -> Result<(), Fail> {
    let mut plan = chain_of(64)?;
    assert_eq!(rt; answer(&mut plan, Call::Join(64, 1)), Some(8));
    assert_eq!(rt; answer(&mut plan, Call::Join(1, 64)), None);
    assert!(rt; plan.joined(1, 64) && !plan.joined(64, 1));
    Ok(())
}

#[test]
fn readings_follow_the_calls(rt: HostRuntime) -> Result<(), Fail> {
    let mut plan = Plan::new();
    assert_eq!(rt; plan.round(), 1);
    assert_eq!(rt; plan.settling(), 0);
    for (call, _number) in CALLS {
        answer(&mut plan, call);
    }
    assert_eq!(rt; plan.count(), 5);
    assert_eq!(rt; plan.round(), 20);
    assert_eq!(rt; plan.settling(), 4);
    let moved = plan.handler(5).ok_or("there are five handlers")?;
    assert_eq!(rt; moved.core, 8);
    assert!(rt; plan.handler(6).is_none() && plan.joined(1, 2) && !plan.joined(2, 1));
    Ok(())
}

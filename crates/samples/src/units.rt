// One unit of time on small plans.
use checker::choosing::{choice, ready};
use checker::following::Successors;
use checker::fronts::advance;
use checker::given::{Misfit, unit_with};
use checker::lateness::late;
use checker::moments::Moment;
use checker::starting::starts;
use gather::lent::Lent;
use gather::tables::Table;
use model::states::State;
use plan::handlers::Handler;
use plan::plans::Plan;
use plan::refusals::Refusal;
use policy::cores::Core;
use policy::criteria::FixedPriority;
use policy::disciplines::Numbered;
use std::alloc::{AllocError, Global};
use std::test::Fail;

// Two handlers of period 4, the first (1 to 2 units, core 1) joined before the second (1 to 3 units, core 2).
fn two_joined() -> Result<Plan, Refusal> {
    let mut plan = Plan::new();
    plan.register(Handler {
        period: 4,
        offset: 0,
        shortest: 1,
        longest: 2,
        core: 1,
    })?;
    plan.register(Handler {
        period: 4,
        offset: 0,
        shortest: 1,
        longest: 3,
        core: 2,
    })?;
    plan.join(1, 2)?;
    Ok(plan)
}

// The times left of the first two handlers in each state that follows, in the order in which they come.
fn listed(heap: Global, plan: &Plan, t: u64, state: State) -> Result<String, AllocError> {
    let mut text = String::new(heap);
    let d = Numbered {
        criterion: FixedPriority,
    };
    let mut moment = Moment::new(plan);
    moment.go_on(t);
    moment.prepare(&d, 1);
    for next in Successors::of(&moment, &d, state) {
        let (first, second) = (next.time_left(1), next.time_left(2));
        text.push_str(format!(in heap; "{first} {second};")?.as_str())?;
    }
    Ok(text)
}

#[test]
fn every_choice_follows(rt: HostRuntime) -> Result<(), Fail> {
    let heap = rt.alloc();
    let plan = two_joined()?;
    let all = listed(heap, &plan, 0, State::new())?;
    assert_eq!(rt; all.as_str(), "0 1;1 1;0 2;1 2;0 3;1 3;");
    let none_starts = listed(heap, &plan, 1, State { left: [3; 64] })?;
    assert_eq!(rt; none_starts.as_str(), "2 3;");
    Ok(())
}

#[test]
fn a_joined_handler_waits(rt: HostRuntime) -> Result<(), Fail> {
    let plan = two_joined()?;
    let d = Numbered {
        criterion: FixedPriority,
    };
    let one = Core::new(1).ok_or("there is a core 1")?;
    let two = Core::new(2).ok_or("there is a core 2")?;
    let state = State { left: [1; 64] };
    assert_eq!(rt; choice(&plan, &d, one, 1, &state), Some(1));
    assert_eq!(rt; choice(&plan, &d, two, 1, &state), None);
    assert!(rt; !ready(&plan, &state, 2));
    assert!(rt; !ready(&plan, &state, 3));
    assert!(rt; starts(&plan, 2, 8));
    assert!(rt; !starts(&plan, 3, 8));
    assert!(rt; late(&plan, 4, &state, 2));
    assert!(rt; !late(&plan, 0, &state, 2));
    Ok(())
}

fn misfit(plan: &Plan, times: &[u16]) -> Option<Misfit> {
    let d = Numbered {
        criterion: FixedPriority,
    };
    unit_with(plan, &d, 0, State::new(), times).err()
}

#[test]
fn times_that_do_not_fit(rt: HostRuntime) -> Result<(), Fail> {
    let plan = two_joined()?;
    assert_eq!(rt; misfit(&plan, &[2, 3]), None);
    assert_eq!(rt; misfit(&plan, &[2]), Some(Misfit::Ended { number: 2 }));
    assert_eq!(rt;
        misfit(&plan, &[0, 3]),
        Some(Misfit::Outside { number: 1, time: 0 })
    );
    assert_eq!(rt;
        misfit(&plan, &[2, 4]),
        Some(Misfit::Outside { number: 2, time: 4 })
    );
    Ok(())
}

// How many states there are one unit after the first, where the tables have so many rows.
fn fronts(plan: &Plan, rows: usize) -> Option<usize> {
    let d = Numbered {
        criterion: FixedPriority,
    };
    let (mut first, mut second) = ([State::new(); 8], [State::new(); 8]);
    let mut front = Lent::new(&mut first[..1]);
    let mut back = Lent::new(&mut second[..rows.min(8)]);
    front.insert(&State::new());
    advance(&mut Moment::new(plan), &d, &front, &mut back).ok()?;
    Some(back.rows().len())
}

#[test]
fn a_front_follows_a_front(rt: HostRuntime) -> Result<(), Fail> {
    let plan = two_joined()?;
    assert_eq!(rt; fronts(&plan, 6), Some(6));
    assert_eq!(rt; fronts(&plan, 5), None);
    Ok(())
}

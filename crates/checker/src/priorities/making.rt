// The handlers of a plan, in the order of their numbers.
ghost use Rattle.std.specs.Prelude.{◌≡◌, ◌<◌, false};
ghost use Rattle.plan.specs.Contents.{contents, count, at};
ghost use Rattle.checker.specs.Orders.{EachOnce, SeatAt, JoinedBefore};

use crate::priorities::{Priorities, Seat};
use arrayvec::ArrayVec;
use plan::plans::Plan;
use policy::cores::Core;
use std::array;

// The places of all handlers.
fn all_places(plan: &Plan) -> ArrayVec<u8, 64>
    ensures { EachOnce (contents plan.now) result.items }
{
    let mut places = ArrayVec::new();
    for place in 0..plan.count() {
        places.push(place);
    }
    places
}

// The seat of the handler at the place, if there is one.
fn seat(plan: &Plan, place: u8) -> Option<Seat>
    requires { place < 64 }
    ensures { SeatAt (contents plan.now) place result }
{
    let handler = plan.handler(place + 1)?;
    let core = Core::new(handler.core)?;
    let candidate = plan.candidate(place + 1)?;
    Some(Seat { core, candidate })
}

// The number of the core of the handler at the place; 0 where there is none.
fn core_at(plan: &Plan, place: u8) -> u8
    requires { place < 64 }
    ensures { place < count (contents plan.now) → result ≡ (at (contents plan.now) place).core }
{
    plan.handler(place + 1).map_or(0, |handler| handler.core)
}

// The handlers that are joined before the one at the place: a bit for each, by its place.
fn joined_before(plan: &Plan, place: u8) -> u64
    requires { place < 64 }
    ensures { JoinedBefore (contents plan.now) place result }
{
    let mut places = 0;
    for other in 0..plan.count() {
        if plan.joined(other + 1, place + 1) {
            places |= 1 << other;
        }
    }
    places
}

impl<'p> Priorities<'p> {
    /// The handlers of a plan in the order of their numbers.
    pub(crate) fn new(plan: &'p Plan) -> Priorities<'p>
        ensures of_plan { result.plan.now ≡ plan.now }
        ensures unsorted { result.sorted ≡ false }
    {
        let seats = array::from_fn(
            |i|
                requires { i < 64 }
                ensures { SeatAt (contents plan.entry.now) i result }
            { seat(plan, i as u8) },
        );
        let cores = array::from_fn(
            |i|
                requires { i < 64 }
                ensures { i < count (contents plan.entry.now)
                    → result ≡ (at (contents plan.entry.now) i).core }
            { core_at(plan, i as u8) },
        );
        let before = array::from_fn(
            |i|
                requires { i < 64 }
                ensures { JoinedBefore (contents plan.entry.now) i result }
            { joined_before(plan, i as u8) },
        );
        Priorities {
            plan,
            places: all_places(plan),
            sorted: false,
            seats,
            cores,
            before,
        }
    }
}

// What depends on the time alone, found in one pass over the handlers.
ghost use Rattle.std.specs.Prelude.{◌≤◌};
ghost use Rattle.plan.specs.Contents.{contents};
ghost use Rattle.checker.specs.Starting.{TurnAt, StartsAre, Quiet, NextStart};

use plan::handlers::Handler;
use plan::plans::Plan;

// Whether a handler starts at a time, and how many units later it starts next.
#[derive(Clone, Copy)]
struct Turn {
    begins: bool,
    ahead: u64,
}

// How the handler stands at `t`, by one remainder.
fn turn_at(handler: Handler, t: u64) -> Turn
    requires { 1 ≤ handler.period }
    ensures { TurnAt handler t result.begins result.ahead }
{
    let offset = handler.offset as u64;
    let period = handler.period as u64;
    if t < offset {
        return Turn {
            begins: false,
            ahead: offset - t,
        };
    }
    let gone = (t - offset) % period;
    Turn {
        begins: gone == 0,
        ahead: period - gone,
    }
}

// Who starts at a time, and after how many units somebody starts next.
#[derive(Clone, Copy)]
pub(crate) struct Found {
    // The handlers that start: a bit for each, by its place.
    pub(crate) starters: u64,
    pub(crate) quiet: u64,
}

// What is found of this time.
pub(crate) fn find(plan: &Plan, time: u64) -> Found
    ensures starting { StartsAre (contents plan.now) time result.starters }
    ensures later { 1 ≤ result.quiet }
    ensures still { Quiet (contents plan.now) time result.quiet }
    ensures next { NextStart (contents plan.now) time result.quiet }
{
    let mut starters = 0;
    let mut quiet = u64::MAX;
    for place in 0..plan.count() {
        if let Some(handler) = plan.handler(place + 1) {
            let turn = turn_at(handler, time);
            if turn.begins {
                starters |= 1 << place;
            }
            quiet = quiet.min(turn.ahead);
        }
    }
    Found { starters, quiet }
}

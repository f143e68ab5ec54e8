// The plan's type carries every fact that holds of all plans.
ghost use Rattle.plan.specs.Invariant.{IsPlan};

use crate::handlers::Handler;

mod joining;
mod reading;
mod registering;
mod seating;

/// Handlers, at most 64 of them, each with the number that its registering answered; and joins, by which one handler
/// waits in each period for another to be done. The memory is the caller's, and there is no more of it than this.
// Arrays beside a count, and no list: their memory is fixed, and `untouched` speaks of every byte after a refusal. The
// place of a known number is written `number as usize - 1`: a function for it would have to require that it is known.
#[derive(Drop)]
pub struct Plan {
    count: u8,
    round: u32,
    settling: u16,
    handlers: [Handler; 64],
    joins: [[bool; 64]; 64],
    ghost holds: { IsPlan count round settling handlers joins },
}

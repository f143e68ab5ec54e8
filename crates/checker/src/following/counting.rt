// Counting up.
ghost use Rattle.std.specs.Prelude.{MatchOption};
ghost use Rattle.checker.specs.Rows.{Below, Full, NextRow};
ghost use Rattle.checker.specs.Successors.{GivesNext, coming};
ghost use Rattle.std.specs.Iterator.{at_most};

use crate::following::Successors;
use model::states::State;

// The next row: up by one at the first place that has room, and back to the least at those before
// it.
fn next_row(state: State, low: &State, high: &State) -> Option<State>
    requires { Below state.left high.now.left }
    ensures { MatchOption result (Full high.now.left state.left)
        (λ s. NextRow low.now.left high.now.left state.left s.left) }
{
    // Most often this is the last row, since few handlers start at one time.
    if state == *high {
        return None;
    }
    let mut left = state.left;
    // Finding the place with `position`, and then copying what is before it, takes twice the time.
    for (place, now) in left.iter_mut().enumerate() {
        if *now < high.left[place] {
            *now += 1;
            return Some(State { left });
        }
        *now = low.left[place];
    }
    None
}

impl Iterator for Successors {
    type Item = State;

    ghost next_gives = { GivesNext };

    ghost remaining = { λ s. at_most (coming s) };

    // Hands out the state at hand, and goes on to the next one.
    fn next(&mut self) -> Option<State> {
        let state = self.next?;
        // Stored in each arm: storing the answer as a whole takes one more copy.
        match next_row(state, &self.low, &self.high) {
            Some(next) => self.next = Some(next),
            None => self.next = None,
        }
        Some(state)
    }
}

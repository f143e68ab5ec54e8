// The states that can follow a state. Who runs does not depend on the times chosen, so these states are all that lie
// between the one with the shortest times and the one with the longest.
ghost use Rattle.std.specs.Option.{ForSome};
ghost use Rattle.checker.specs.Rows.{Below};

use model::states::State;

mod counting;
mod reaching;

/// The states that follow a state, one for each combination of chosen times, in the order of counting up from all
/// shortest times on. Once they have all come, none comes later.
#[derive(Drop)]
pub struct Successors {
    next: Option<State>,
    low: State,
    high: State,
    ghost above: { ForSome next (λ s. Below low.left s.left) },
    ghost below: { ForSome next (λ s. Below s.left high.left) },
}

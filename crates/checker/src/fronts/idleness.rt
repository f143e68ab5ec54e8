// Fronts in which nobody has time left.
ghost use Rattle.std.specs.Prelude.{◌≡◌, [], ◌∷◌, Decides};
ghost use Rattle.checker.specs.Fronts.{idle};

use gather::tables::Table;
use model::states::State;

/// Whether the one state of the front is that in which nobody has time left.
pub fn is_idle<W: Table<Item = State>>(front: &W) -> bool
    ensures { Decides result (W.members front.now ≡ idle ∷ []) }
{
    match front.rows() {
        [state] => *state == State::new(),
        _ => false,
    }
}

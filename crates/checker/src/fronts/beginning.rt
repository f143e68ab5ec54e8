// The front of time 0.
ghost use Rattle.std.specs.Prelude.{◌≡◌, MatchResult};
ghost use Rattle.policy.specs.Laws.{Choice};
ghost use Rattle.plan.specs.Contents.{Contents, Sound};
ghost use Rattle.model.specs.Runs.{StateAt};
ghost use Rattle.model.specs.Verdicts.{Outnumber};
ghost use Rattle.checker.specs.Fronts.{Front};

use crate::fronts::NoRoom;
use gather::tables::{Inserted, Table};
use model::states::State;

/// Puts the one state at time 0 into `front`, emptied first: that of any plan under any discipline.
pub fn begin<W: Table<Item = State>>(front: &mut W) -> Result<(), NoRoom>
    ensures begins { (p : Contents) (D : Choice) → Sound p → MatchResult result
        (λ _. Front p D 0 (W.members front.new))
        (λ _. Outnumber (StateAt p D 0) (W.room front.old)) }
    ensures same_room { W.room front.new ≡ W.room front.old }
    ensures frame { (s : W) × W.emptied front.old s × W.extended s front.new }
{
    front.clear();
    match front.insert(&State::new()) {
        Inserted::New | Inserted::There => Ok(()),
        Inserted::Full => Err(NoRoom),
    }
}

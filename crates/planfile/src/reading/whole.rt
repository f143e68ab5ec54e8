// Reading a whole file.
ghost use Rattle.std.specs.Prelude.{◌≡◌, [], OnErr, MatchResult};
ghost use Rattle.plan.specs.Contents.{contents, empty};
ghost use Rattle.planfile.specs.Theorems.{FilesAreWritten, EveryFileIsReadOnce, FirstBytesDecide};
ghost use Rattle.planfile.specs.Reads.{IsFile, IsRefused, Reads};

use crate::entering::enter;
use crate::faults::Fault;
use crate::reading::Reader;
use arrayvec::ArrayVec;
use plan::plans::Plan;

// Enters every record of the file into an empty plan, and into no codes.
fn enter_all(bytes: &[u8], plan: &mut Plan, codes: &mut ArrayVec<u8, 8>) -> Result<(), Fault>
    requires plan { contents plan.old ≡ empty }
    requires codes { codes.old.items ≡ [] }
    ensures { MatchResult result (λ _. IsFile bytes.now (contents plan.new) codes.new.items) (IsRefused bytes.now) }
{
    let mut reader = Reader::new(bytes);
    let mut place = 0;
    while let Some(next) = reader.next_record()? {
        enter(plan, codes, next).map_err(|cause| Fault { cause, place })?;
        place = reader.place;
    }
    Ok(())
}

/// Reads a file into the plan and the codes of the cores 1 to 8; they stay as they were where the file is refused.
pub fn read(bytes: &[u8], plan: &mut Plan, codes: &mut [u8; 8]) -> Result<(), Fault>
    ensures reads { Reads bytes.now result (contents plan.old) codes.old (contents plan.new) codes.new }
    ensures untouched { OnErr result ((plan.new ≡ plan.old) × (codes.new ≡ codes.old)) }
    ensures written { FilesAreWritten }
    ensures once { EveryFileIsReadOnce }
    ensures first_bytes { FirstBytesDecide }
{
    let mut fresh = Plan::new();
    let mut fresh_codes = ArrayVec::new();
    enter_all(bytes, &mut fresh, &mut fresh_codes)?;
    *plan = fresh;
    codes.copy_from_slice(&fresh_codes);
    Ok(())
}

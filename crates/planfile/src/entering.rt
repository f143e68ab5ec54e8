// Entering what a record says into a plan and the codes of its cores.
ghost use Rattle.std.specs.Prelude.{◌≡◌, ℕ, ◌<◌};
ghost use Rattle.arrayvec.specs.ArrayVec.{array_vec_len};
ghost use Rattle.plan.specs.Contents.{contents};
ghost use Rattle.planfile.specs.Tests.{CodeEnters, Enters};

use crate::faults::{Cause, Flaw};
use crate::records::Record;
use arrayvec::ArrayVec;
use plan::plans::Plan;
use policy::codes::Code;

// The code of the next core.
fn enter_code(codes: &mut ArrayVec<u8, 8>, code: u8) -> Result<(), Cause>
    requires { array_vec_len codes.old < 8 }
    ensures { CodeEnters codes.old.items code result codes.new.items }
{
    if Code::try_from(code).is_err() {
        return Err(Cause::File(Flaw::NoSuchCode));
    }
    codes.push(code);
    Ok(())
}

// Enters the record, unless the plan refuses it or its code is none.
pub(crate) fn enter(plan: &mut Plan, codes: &mut ArrayVec<u8, 8>, next: Record) -> Result<(), Cause>
    requires { (core code : ℕ) → next ≡ Record.Core core code → array_vec_len codes.old < 8 }
    ensures { Enters (contents plan.old) codes.old.items next result (contents plan.new) codes.new.items }
{
    match next {
        Record::Handler(handler) => {
            plan.register(handler)?;
        }
        Record::Join { first, second } => plan.join(first, second)?,
        Record::Core { code, .. } => enter_code(codes, code)?,
        Record::End => {}
    }
    Ok(())
}

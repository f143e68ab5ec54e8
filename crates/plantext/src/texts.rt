// The text form of a plan turned into the plan's file, and a file turned into the text form.

ghost use Rattle.std.specs.Prelude.{◌≡◌, ℕ, List, map, IfOk, MatchResult};
ghost use Rattle.std.specs.Result.{IsOkAnd};
ghost use Rattle.std.specs.Str.Lines.{lines};
ghost use Rattle.plan.specs.Contents.{Contents};
ghost use Rattle.policy.specs.Codes.{number_of};
ghost use Rattle.plantext.specs.Taking.{IsUnlisted};
ghost use Rattle.planfile.specs.Files.{file_of};
ghost use Rattle.planfile.specs.Reads.{IsRefused};
ghost use Rattle.plantext.specs.Turned.{IsFileOf, IsTextOf, OfEveryInput};
ghost use Rattle.plantext.specs.RoundTrips.{IsPrinted, ComesBack, TextIsReadBack};

use crate::listing::{Unlisted, read as read_text};
use crate::texts::printing::{Text, printed};
use arrayvec::ArrayVec;
use plan::plans::Plan;
use planfile::faults::Fault;
use planfile::reading::whole::read as read_file;
use planfile::writing::write;
use policy::codes::Code;
use thiserror::Error;

pub mod printing;

// No file is longer.
const LONGEST_FILE: usize = 6_713;

/// The bytes of a file.
pub type File = ArrayVec<u8, LONGEST_FILE>;

/// Why bytes are not turned into text: they are the file of no plan.
#[derive(Debug, Drop, Error)]
#[error("byte {}: refused with {}: {}", .0.place, .0.cause.number(), .0.cause)]
pub struct Unread(pub Fault);

// By hand and not by `#[from]`, whose impl has no contract: clauses say which error a `?` hands on.
impl From<Fault> for Unread {
    ghost from_gives = { λ fault e. e.0 ≡ fault };

    fn from(e: Fault) -> Unread {
        Unread(e)
    }
}

// The numbers by which a plan names the codes.
fn numbers(codes: &[Code; 8]) -> [u8; 8]
    ensures { result ≡ map number_of codes.now }
{
    codes.map(|code| code.number())
}

/// The file of the plan and codes that the text describes.
pub fn to_file(text: &str) -> Result<File, Unlisted>
    ensures file { let ls = lines text.now in
        MatchResult result (λ file. IsFileOf ls file.items) (IsUnlisted ls) }
    ensures printed { (k : Contents) (codes : List ℕ) → IsPrinted text.now k codes
        → IsOkAnd result (λ file. file.items ≡ file_of k codes) }
{
    let list = read_text(text)?;
    let mut bytes = [0; LONGEST_FILE];
    // What a listing holds is never refused: its codes are codes, and there is room for any file.
    let Ok(length) = write(&list.plan, &numbers(&list.codes), &mut bytes) else {
        unreachable()
    };
    let mut file = ArrayVec::from(bytes);
    file.truncate(length);
    Ok(file)
}

/// The text form of the plan and codes whose file the bytes are.
pub fn to_text(bytes: &[u8]) -> Result<Text, Unread>
    ensures text { MatchResult result (λ text. IsTextOf bytes.now text.bytes)
        (λ unread. IsRefused bytes.now unread.0) }
    ensures whole { OfEveryInput bytes.now (λ input.
        MatchResult result (λ text. IsTextOf input text.bytes)
        (λ unread. IsRefused input unread.0)) }
    ensures comes_back { IfOk result (λ text. ComesBack bytes.now text.bytes) }
    ensures read_back { TextIsReadBack }
{
    let mut plan = Plan::new();
    let mut codes = [0; 8];
    read_file(bytes, &mut plan, &mut codes)?;
    Ok(printed(&plan, &codes))
}

#[cfg(test)]
mod tests;

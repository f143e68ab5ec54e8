// What a program in C calls. `c/koelstool.h` says it in C's words.
#![tactic(auto)]

ghost use Rattle.std.specs.Prelude.{◌≡◌, Bool};
ghost use Rattle.report.specs.Records.{Fills, as_number};

use report::records::fill;

/// Fills the record with what is said of the bytes, and answers 1; a record of another length than 17 bytes is left as
/// it is, and the answer is 0. Nothing is allocated.
#[unsafe(no_mangle)]
pub extern "C" fn koelstool_check(bytes: &[u8], out: &mut [u8]) -> u8
    ensures { (filled : Bool) × Fills bytes.now out.old filled out.new × (result ≡ as_number filled) }
{
    fill(bytes, out).into()
}

// The record that is filled for callers in other languages.
ghost use Rattle.std.specs.Prelude.{◌≡◌};
ghost use Rattle.report.specs.Records.{record_of, Fills};
ghost use Rattle.report.specs.Theorems.{RecordsTell};

use crate::judging::answer;
use crate::words::Answer;

// The length of a record.
const LENGTH: usize = 17;

// The word's number, and then the two numbers, each with its high byte first.
fn record_of(answer: Answer) -> [u8; LENGTH]
    ensures { result ≡ record_of answer }
{
    let mut record = [0; LENGTH];
    record[0] = answer.word.number();
    record[1..9].copy_from_slice(&answer.first.to_be_bytes());
    record[9..].copy_from_slice(&answer.second.to_be_bytes());
    record
}

/// Fills the record with what is said of the bytes, and answers whether it did: a record of another length than 17
/// bytes is left as it is.
pub fn fill(bytes: &[u8], out: &mut [u8]) -> bool
    ensures fills { Fills bytes.now out.old result out.new }
    ensures tells { RecordsTell }
{
    if out.len() != LENGTH {
        return false;
    }
    out.copy_from_slice(&record_of(answer(bytes)));
    true
}

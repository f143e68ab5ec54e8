// The line that is printed.
ghost use Rattle.std.specs.Prelude.{◌≡◌, ◌≢◌, ◌+◌, ◌≤◌, ◌∷◌, ◌++◌, take, length, decimal, IfOk, IfErr, IfSome};
ghost use Rattle.std.specs.IoError.{error_kind};
ghost use Rattle.std.specs.Io.{ReadsAtMost};
ghost use Rattle.std.specs.Io.KnownBytes.{ReadConsumes};
ghost use Rattle.report.specs.Lines.{most_read, Prints, PrintsWhole};
ghost use Rattle.report.specs.Theorems.{LinesTell};

use crate::judging::answer;
use arrayvec::{ArrayString, ArrayVec};
use itoa::Buffer;
use std::io;
use std::io::{ErrorKind, Read};

// So many bytes of an input are read. What stands behind them cannot matter: a file is never so long.
const MOST_BYTES: usize = 8_192;

/// What is read of an input.
pub type Input = ArrayVec<u8, MOST_BYTES>;

// The longest line: seven letters, two numbers of twenty digits, two spaces, and the line feed.
const LONGEST: usize = 50;

/// A line, with its line feed.
pub type Line = ArrayString<LONGEST>;

fn push_number(line: &mut Line, number: u64)
    requires { length line.old.bytes + 21 ≤ 50 }
    ensures number { line.new.bytes ≡ line.old.bytes ++ 32 ∷ decimal number }
    ensures grows { length line.new.bytes ≤ length line.old.bytes + 21 }
{
    line.push_str(" ");
    line.push_str(Buffer::new().format(number));
}

/// The line that is printed of these bytes, and so of every input of which they are what is read.
pub fn line(bytes: &[u8]) -> Line
    ensures prints { Prints bytes.now result.bytes }
    ensures whole { PrintsWhole bytes.now result.bytes }
    ensures tells { LinesTell }
{
    let answer = answer(bytes);
    let mut line = ArrayString::new();
    line.push_str(answer.word.text());
    push_number(&mut line, answer.first);
    push_number(&mut line, answer.second);
    line.push_str("\n");
    line
}

// One read; where a signal interrupts it, another, and so on as long as a count of 64 bits goes.
fn read_some<R: Read>(input: &mut R, buffer: &mut [u8]) -> io::Result<usize>
    ensures bound { ReadsAtMost result buffer.new }
    ensures bytes { ReadConsumes (R.remaining input.old) (R.remaining input.new) result buffer.new }
    ensures retried { IfErr result (λ e. error_kind e ≢ ErrorKind.Interrupted) }
{
    'tries: for _ in 0..u64::MAX {
        match input.read(buffer) {
            Err(e) if e.kind() == ErrorKind::Interrupted => {}
            outcome => return outcome,
        }
    }
    Err(io::Error::from(ErrorKind::TimedOut))
}

// Reads until the buffer is full or the input ends, and answers how many bytes came.
fn fill<R: Read>(input: &mut R, buffer: &mut [u8]) -> io::Result<usize>
    ensures bytes { IfOk result (λ count. IfSome (R.remaining input.old) (λ bytes.
        take count buffer.new ≡ take (length buffer.old) bytes)) }
    ensures retried { IfErr result (λ e. error_kind e ≢ ErrorKind.Interrupted) }
{
    let mut filled = 0;
    'reads: while filled < buffer.len() {
        match read_some(input, &mut buffer[filled..])? {
            0 => return Ok(filled),
            count => filled += count,
        }
    }
    Ok(filled)
}

/// Reads an input, but no more of it than can matter. It asks for no memory, and hands on no error but one that the
/// reader gave; a signal that interrupts a read is none.
pub fn read_input<R: Read + Drop>(mut input: R) -> io::Result<Input>
    ensures bytes { IfOk result (λ read. IfSome (R.remaining input) (λ bytes.
        read.items ≡ take most_read bytes)) }
    ensures retried { IfErr result (λ e. error_kind e ≢ ErrorKind.Interrupted) }
{
    let mut bytes = [0; MOST_BYTES];
    let count = fill(&mut input, &mut bytes)?;
    let mut read = ArrayVec::from(bytes);
    read.truncate(count);
    Ok(read)
}

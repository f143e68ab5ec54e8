// Reads many files of plans from standard input, each behind its length in four bytes, the high byte first, and prints
// the line of each.
#![tactic(auto)]

use report::lines::line;
use std::io;
use std::io::Read;

fn main(rt: HostRuntime) -> io::Result<()> {
    let mut input = Vec::new(rt.alloc());
    rt.reader().read_to_end(&mut input)?;
    let mut rest = input.as_slice();
    while let [b3, b2, b1, b0, behind @ ..] = rest {
        let length = u32::from_be_bytes([*b3, *b2, *b1, *b0]) as usize;
        let (bytes, next) = behind.split_at(length.min(behind.len()));
        print!(rt; "{}", line(bytes).as_str())?;
        rest = next;
    }
    Ok(())
}

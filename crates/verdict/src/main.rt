// Reads the file of a plan from standard input, and prints what is true of every run of that plan, or why it is no file.
#![tactic(auto)]

use report::lines::{line, read_input};
use std::io;

fn main(rt: HostRuntime) -> io::Result<()> {
    let bytes = read_input(rt.reader())?;
    print!(rt; "{}", line(&bytes).as_str())
}

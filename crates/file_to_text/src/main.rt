// Reads the file of a plan, and prints the plan's text form.
#![tactic(auto)]

use plantext::listing::finish;
use plantext::texts::to_text;
use report::lines::read_input;
use std::io;
use std::process::ExitCode;

fn run(rt: &HostRuntime) -> anyhow::Result<()> {
    let bytes = read_input(rt.reader())?;
    print!(rt; "{}", to_text(&bytes)?.as_str())?;
    Ok(())
}

fn main(rt: HostRuntime) -> io::Result<ExitCode> {
    finish(&rt, run(&rt))
}

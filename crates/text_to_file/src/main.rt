// Reads the text form of a plan, and writes the plan's file.
#![tactic(auto)]

use plantext::listing::finish;
use plantext::texts::to_file;
use std::io::{self, Write};
use std::process::ExitCode;

fn run(rt: &HostRuntime) -> anyhow::Result<()> {
    let text = io::read_to_string(rt.alloc(), rt.stdin())?;
    let file = to_file(&text)?;
    rt.stdout().write_all(&file)?;
    Ok(())
}

fn main(rt: HostRuntime) -> io::Result<ExitCode> {
    finish(&rt, run(&rt))
}

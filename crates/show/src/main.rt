// Reads a plan and the codes of its cores, and prints the run of the plan for which the arguments ask: how many units,
// and the times that the starts take.
//
// What a function prints is no value that a contract could name: those that only print have none.
#![tactic(auto)]

ghost use Rattle.std.specs.Prelude.{IfOk};
ghost use Rattle.plan.specs.Contents.{contents};
ghost use Rattle.show.specs.Runs.{Takes};

use anyhow::anyhow;
use checker::given::unit_with;
use checker::lateness::late;
use model::states::State;
use plan::plans::Plan;
use plantext::listing::{finish, read};
use policy::codes::code_bank;
use policy::disciplines::Discipline;
use std::process::ExitCode;
use std::{env, io};

// What the arguments ask for: a run of so many units, in which the starts take these times.
#[derive(Drop)]
struct Asked {
    units: u16,
    times: Vec<u16>,
}

// The numbers of the arguments; nothing where there are none.
fn wanted_run(rt: &HostRuntime) -> anyhow::Result<Option<Asked>> {
    let mut numbers = env::args(rt)?
        .skip(1)
        .map(|word| -> anyhow::Result<u16> { Ok(word.parse()?) });
    let Some(units) = numbers.next().transpose()? else {
        return Ok(None);
    };
    let times = numbers.try_collect(rt.alloc())?;
    Ok(Some(Asked { units, times }))
}

// Prints the time left of each handler, and who is late.
fn show_state(rt: &HostRuntime, plan: &Plan, t: u64, state: &State) -> io::Result<()> {
    print!(rt; "at {t}:")?;
    for number in 1..=plan.count() {
        print!(rt; " {}", state.time_left(number))?;
        if late(plan, t, state, number) {
            print!(rt; " late")?;
        }
    }
    println!(rt; "")
}

// Prints the states of a run with these times, unit by unit; answers how many of the times it took.
fn show_run<D: Discipline>(
    rt: &HostRuntime,
    plan: &Plan,
    d: &D,
    units: u16,
    times: &[u16],
) -> anyhow::Result<usize>
    ensures { IfOk result (Takes (contents plan.now) (D.first d.now) times.now units) }
{
    let mut state = State::new();
    let mut rest = times;
    for t in 0..units as u64 {
        show_state(rt, plan, t, &state)?;
        let taken = unit_with(plan, d, t, state, rest).map_err(|misfit| anyhow!(
            "at {t}: {misfit}"
        ))?;
        state = taken.state;
        rest = taken.rest;
    }
    show_state(rt, plan, units as u64, &state)?;
    Ok(times.len().saturating_sub(rest.len()))
}

fn run(rt: &HostRuntime) -> anyhow::Result<()> {
    let text = io::read_to_string(rt.alloc(), rt.stdin())?;
    let list = read(&text)?;
    if let Some(Asked { units, times }) = wanted_run(rt)? {
        let took = show_run(rt, &list.plan, &code_bank(&list.codes), units, &times)?;
        println!(rt; "units {units}, starts {took}")?;
    }
    Ok(())
}

fn main(rt: HostRuntime) -> io::Result<ExitCode> {
    finish(&rt, run(&rt))
}

#[cfg(test)]
mod tests;

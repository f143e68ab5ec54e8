// Measures a check: reads the file of a plan from standard input, checks it in tables of so many rows as often as the
// arguments ask, prints the verdict in a line, and on standard error the least time that a check took.
//
// What a function prints or measures is no value that a contract could name: those that only do that have none.
#![tactic(auto)]

mod judging;

use crate::judging::{Tables, decoded, judge, said};
use anyhow::bail;
use model::verdicts::Verdict;
use plan::plans::Plan;
use planfile::reading::whole::read;
use policy::codes::Code;
use report::lines::read_input;
use std::env;
use std::time::{Duration, Instant};

// What the arguments ask for: so many rows in each table, and so many checks, at least one.
struct Asked {
    rows: u16,
    checks: u32,
}

fn arguments(rt: &HostRuntime) -> anyhow::Result<Asked> {
    let mut words = env::args(rt)?.skip(1);
    let (Some(rows), Some(checks), None) = (words.next(), words.next(), words.next()) else {
        bail!("the arguments are ROWS CHECKS");
    };
    Ok(Asked {
        rows: rows.parse()?,
        checks: checks.parse()?,
    })
}

// A verdict, and the time that the check took.
#[derive(Clone, Copy)]
struct Timed {
    verdict: Verdict,
    took: Duration,
}

fn time_once(
    rt: &HostRuntime,
    plan: &Plan,
    codes: &[Code; 8],
    tables: &mut Tables,
) -> anyhow::Result<Timed> {
    let begun = Instant::now(rt)?;
    let verdict = judge(
        plan,
        codes,
        &mut tables.front,
        &mut tables.back,
        &mut tables.marks,
    )?;
    let took = begun.elapsed(rt)?;
    Ok(Timed { verdict, took })
}

fn main(rt: HostRuntime) -> anyhow::Result<()> {
    let Asked { rows, checks } = arguments(&rt)?;
    let bytes = read_input(rt.reader())?;
    let (mut plan, mut numbers) = (Plan::new(), [0; 8]);
    read(&bytes, &mut plan, &mut numbers)?;
    let codes = decoded(&numbers)?;

    let mut tables = Tables::of(rt.alloc(), rows)?;
    let mut best = time_once(&rt, &plan, &codes, &mut tables)?;
    for _ in 1..checks {
        let next = time_once(&rt, &plan, &codes, &mut tables)?;
        if next.took < best.took {
            best = next;
        }
    }

    let line = said(best.verdict, rows);
    println!(rt; "{} {} {}", line.word.text(), line.first, line.second)?;
    eprintln!(rt; "{} ns", best.took.as_nanos())?;
    Ok(())
}

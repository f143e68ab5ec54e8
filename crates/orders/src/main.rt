// Reads a plan and the codes of its cores, and prints the plan, in which order the handlers of each core go and when
// that changes.
//
// What a function prints is no value that a contract could name: those that only print have none.
#![tactic(auto)]

ghost use Rattle.std.specs.Prelude.{◌-◌, IfOk, MatchOption};
ghost use Rattle.plan.specs.Contents.{contents, Known};
ghost use Rattle.orders.specs.Rows.{IsOn, IsElsewhere, IsRowOf};

use plan::plans::Plan;
use plantext::listing::{Listing, finish, read};
use policy::candidates::Candidate;
use policy::codes::code_bank;
use policy::cores::Core;
use policy::disciplines::Discipline;
use policy::ranking::{arrange, next_change};
use std::alloc::{AllocError, Global};
use std::process::ExitCode;
use std::{fmt, io};

// What the report looked at.
#[derive(Drop)]
struct Account {
    cores: u64,
    times: u64,
    changes: u64,
}

impl fmt::Display for Account {
    fn fmt<W: fmt::Write>(&self, f: &mut fmt::Formatter<W>) -> fmt::Result {
        write!(
            f,
            "cores {}, times {}, changes {}",
            self.cores, self.times, self.changes
        )
    }
}

fn show(rt: &HostRuntime, core: Core, t: u64, row: &[Candidate]) -> io::Result<()> {
    print!(rt; "core {} at {t}:", core.number())?;
    for candidate in row {
        print!(rt; " {}", candidate.number())?;
    }
    println!(rt; "")
}

// Prints the order at time 0 and at each time before `end` at which it changes; answers how often it did.
fn show_changes<D: Discipline>(
    rt: &HostRuntime,
    d: &D,
    core: Core,
    row: &mut [Candidate],
    end: u64,
) -> io::Result<u64> {
    arrange(d, core, row, 0);
    show(rt, core, 0, row)?;
    // By hand: an iterator over the changes would have to hold the row that each of them arranges anew.
    let mut changes: u64 = 0;
    let mut from = 1;
    while let Some(t) = next_change(d, core, row, from, end) {
        arrange(d, core, row, t);
        show(rt, core, t, row)?;
        changes = changes.saturating_add(1);
        from = t + 1;
    }
    Ok(changes)
}

// The handler of this number as a candidate, if it is one of the core.
fn candidate_on(plan: &Plan, core: Core, number: u8) -> Option<Candidate>
    ensures { MatchOption result
        (Known (contents plan.now) number → IsElsewhere (contents plan.now) core (number - 1))
        (IsOn (contents plan.now) core number) }
{
    plan.handler(number)
        .filter(|handler| handler.core == core.number())
        .and_then(|_| plan.candidate(number))
}

// The handlers of a core, in the order of their numbers.
fn on_core(heap: Global, plan: &Plan, core: Core) -> Result<Vec<Candidate>, AllocError>
    ensures { IfOk result (λ row. IsRowOf (contents plan.now) core row.items) }
{
    let mut row = Vec::new(heap);
    for number in 1..plan.count() + 1 {
        if let Some(candidate) = candidate_on(plan, core, number) {
            row.push(candidate)?;
        }
    }
    Ok(row)
}

// Prints how many handlers there are, the round and the settling time, then each join.
fn show_plan(rt: &HostRuntime, plan: &Plan) -> io::Result<()> {
    let (count, round, settling) = (plan.count(), plan.round(), plan.settling());
    println!(rt; "handlers {count}, round {round}, settling {settling}")?;
    for first in 1..=count {
        show_joins(rt, plan, first)?;
    }
    Ok(())
}

fn show_joins(rt: &HostRuntime, plan: &Plan, first: u8) -> io::Result<()> {
    for second in (1..=plan.count()).filter(|second| plan.joined(first, *second)) {
        println!(rt; "join {first} before {second}")?;
    }
    Ok(())
}

impl Account {
    // Prints the orders of each core in use, over the settling time and one round.
    fn of(rt: &HostRuntime, list: &Listing) -> anyhow::Result<Account> {
        let bank = code_bank(&list.codes);
        let mut account = Account {
            cores: 0,
            times: u64::from(list.plan.settling()) + u64::from(list.plan.round()),
            changes: 0,
        };
        for core in Core::all() {
            let mut row = on_core(rt.alloc(), &list.plan, core)?;
            if !row.is_empty() {
                let changes = show_changes(rt, &bank, core, &mut row, account.times)?;
                account.cores = account.cores.saturating_add(1);
                account.changes = account.changes.saturating_add(changes);
            }
        }
        Ok(account)
    }
}

fn run(rt: &HostRuntime) -> anyhow::Result<()> {
    let text = io::read_to_string(rt.alloc(), rt.stdin())?;
    let list = read(&text)?;
    show_plan(rt, &list.plan)?;
    rt.println(Account::of(rt, &list)?)?;
    Ok(())
}

fn main(rt: HostRuntime) -> io::Result<ExitCode> {
    finish(&rt, run(&rt))
}

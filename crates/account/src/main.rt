// Checks each of the plans with known verdicts, and gives an account: the plan, how the verdict comes, the verdict, and
// what it means. Then makes a mixture of calls, and tells what each answers.
#![tactic(auto)]

ghost use Rattle.std.specs.Prelude.{◌≡◌, true, None, IfOk};
ghost use Rattle.samples.specs.Plans.{Known};
ghost use Rattle.account.specs.Accounts.{AllKnown};

mod checking;
mod mixing;
mod moments;
mod wording;

use crate::checking::{Checked, made};
use crate::mixing::show_mixture;
use crate::wording::{Meaning, Said, show_marks, show_plan, show_sizes};
use anyhow::bail;
use plantext::listing::finish;
use samples::{Sample, samples};
use std::io;
use std::process::ExitCode;

// Prints the account of one sample; answers whether the verdict is the one known.
fn show_sample(rt: &HostRuntime, number: usize, sample: &Sample) -> anyhow::Result<bool>
    ensures { Known sample.now → IfOk result (λ same. same ≡ true) }
{
    let plan = made(sample)?;
    println!(rt; "sample {number}")?;
    show_plan(rt, &plan, &sample.codes)?;
    show_sizes(rt, &plan, sample)?;
    let mut checked = Checked::of(rt, sample, plan)?;
    checked.printed()?;
    show_marks(rt, &checked.plan, checked.marks())?;
    println!(rt; "{}", Said(checked.verdict))?;
    println!(rt;
        "{}\n",
        Meaning {
            sample,
            verdict: checked.verdict
        }
    )?;
    Ok(checked.verdict == sample.verdict)
}

// Prints the accounts of all up to the first whose verdict is not the one known; answers the number of that one.
fn show_samples(rt: &HostRuntime, samples: &[Sample]) -> anyhow::Result<Option<usize>>
    ensures { AllKnown samples.now → IfOk result (λ other. other ≡ None) }
{
    for (place, sample) in samples.iter().enumerate() {
        let number = place.saturating_add(1);
        if !show_sample(rt, number, sample)? {
            return Ok(Some(number));
        }
    }
    Ok(None)
}

fn run(rt: &HostRuntime) -> anyhow::Result<()> {
    let samples = samples();
    if let Some(number) = show_samples(rt, &samples)? {
        bail!("sample {number}: the verdict is not the one known");
    }
    println!(rt;
        "samples {}, and each verdict is the one known",
        samples.len()
    )?;
    show_mixture(rt)?;
    Ok(())
}

fn main(rt: HostRuntime) -> io::Result<ExitCode> {
    finish(&rt, run(&rt))
}

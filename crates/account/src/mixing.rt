// The mixture of calls, in words. Nothing here decides anything, so no function has a contract.
use crate::wording::{Many, Numbers, Said};
use samples::mixture::{Answer, Call, calls, make_calls};
use std::{fmt, io};

// What a call asks.
#[derive(Clone, Copy)]
struct Asked(Call);

impl fmt::Display for Asked {
    fn fmt<W: fmt::Write>(&self, f: &mut fmt::Formatter<W>) -> fmt::Result {
        match self.0 {
            Call::Register(handler) => write!(f, "register {}", Numbers(handler)),
            Call::Join(first, second) => write!(f, "join {first} before {second}"),
            Call::Reseat(number, core) => write!(f, "reseat {number} to core {core}"),
            Call::Check(rows) => write!(
                f,
                "check, {} and {} working rows, {}",
                rows.front,
                rows.back,
                Many(rows.marks as u64, "mark row")
            ),
        }
    }
}

// What it answers.
#[derive(Clone, Copy)]
struct Told(Answer);

impl fmt::Display for Told {
    fn fmt<W: fmt::Write>(&self, f: &mut fmt::Formatter<W>) -> fmt::Result {
        match self.0 {
            Answer::Number(Ok(number)) => write!(f, "number {number}"),
            Answer::Done(Ok(())) => write!(f, "accepted"),
            Answer::Found(Ok(verdict)) => write!(f, "{}", Said(verdict)),
            Answer::Number(Err(refusal))
            | Answer::Done(Err(refusal))
            | Answer::Found(Err(refusal)) => {
                write!(f, "refused with {}: {refusal}", refusal.number())
            }
        }
    }
}

// Prints a line for each call, with its answer.
pub(crate) fn show_mixture(rt: &HostRuntime) -> io::Result<()> {
    println!(rt; "\na mixture of calls on one plan, its checks by fixed priority")?;
    for (call, answer) in calls().iter().zip(make_calls().iter()) {
        println!(rt; "{}: {}", Asked(*call), Told(*answer))?;
    }
    Ok(())
}

// A plan and the codes of its cores, read from text line by line.

ghost use Rattle.std.specs.Prelude.{◌≡◌, ℕ, List, IfOk, OnErr, MatchResult, is_ok, if◌then◌else◌};
ghost use Rattle.plantext.specs.declared.notation.HandlerLine.{HandlerLine};
ghost use Rattle.plantext.specs.declared.notation.JoinLine.{JoinLine};
ghost use Rattle.plantext.specs.declared.notation.CoreLine.{CoreLine};
ghost use Rattle.plantext.specs.declared.notation.Line.{Line};
ghost use Rattle.plantext.specs.declared.listing.Listing.{Listing};
ghost use Rattle.plantext.specs.declared.listing.Trouble.TheVariants.{Words, Refused};
ghost use Rattle.std.specs.Str.Lines.{lines};
ghost use Rattle.plantext.specs.Lines.{texts, Says};
ghost use Rattle.plantext.specs.Taking.{byte_of, before_comment, IsNew, TookHandler, TookJoin, TookCode, Took, RefusesHandler, RefusesJoin, RefusesCode, Refuses, BeginsWith, TookText, Lists, RefusesText, IsUnlisted};
ghost use Rattle.plantext.specs.Theorems.{OneListing, GoodLinesAreTaken, OneRefusal};

use crate::notation::{CoreLine, HandlerLine, JoinLine, Line, Problem, parse_words};
use arrayvec::ArrayVec;
use plan::handlers::Handler;
use plan::plans::Plan;
use plan::refusals::Refusal;
use policy::codes::Code;
use policy::cores::Core;
use std::io;
use std::process::ExitCode;
use thiserror::Error;

// So many words of a line are looked at: no line has as many.
const WORDS: usize = 12;

/// A plan, and a code for each core.
#[derive(Drop)]
pub struct Listing {
    pub plan: Plan,
    pub codes: [Code; 8],
}

/// Why a line is not taken.
#[derive(Debug, Drop, Error)]
pub enum Trouble {
    #[error(transparent)]
    Words(Problem),
    #[error("refused with {}: {}", .0.number(), .0)]
    Refused(Refusal),
    #[error("there is no core {0}: cores are 1 to 8")]
    NoCore(u16),
    #[error("there is no code {0}: codes are 1, 2 and 3")]
    NoCode(u16),
}

/// The first line of a text that is not taken, counted from 1, and why.
#[derive(Debug, Drop, Error)]
#[error("line {line}: {trouble}")]
pub struct Unlisted {
    pub line: usize,
    pub trouble: Trouble,
}

// By hand and not by `#[from]`, whose impls have no contract: clauses say which error a `?` passes on.
impl From<Problem> for Trouble {
    ghost from_gives = { λ problem e. e ≡ Words problem };

    fn from(e: Problem) -> Trouble {
        Trouble::Words(e)
    }
}

impl From<Refusal> for Trouble {
    ghost from_gives = { λ refusal e. e ≡ Refused refusal };

    fn from(e: Refusal) -> Trouble {
        Trouble::Refused(e)
    }
}

// The number as a byte. What does not fit becomes 255, which is no core, no code and no handler either.
fn byte(number: u16) -> u8
    ensures { result ≡ byte_of number }
{
    u8::try_from(number).unwrap_or(255)
}

impl Listing {
    /// No handlers, and fixed priority on every core.
    pub fn new() -> Listing
        ensures { IsNew result }
    {
        Listing {
            plan: Plan::new(),
            codes: [Code::FixedPriority; 8],
        }
    }

    fn add_handler(&mut self, line: HandlerLine) -> Result<(), Trouble>
        ensures took { MatchResult result (λ _. TookHandler line self.old self.new) (RefusesHandler line self.old) }
        ensures same { OnErr result (self.new ≡ self.old) }
    {
        let handler = Handler {
            period: line.period,
            offset: line.offset,
            shortest: line.shortest,
            longest: line.longest,
            core: byte(line.core),
        };
        self.plan.register(handler)?;
        Ok(())
    }

    fn add_join(&mut self, line: JoinLine) -> Result<(), Trouble>
        ensures took { MatchResult result (λ _. TookJoin line self.old self.new) (RefusesJoin line self.old) }
        ensures same { OnErr result (self.new ≡ self.old) }
    {
        self.plan.join(byte(line.first), byte(line.second))?;
        Ok(())
    }

    fn set_code(&mut self, line: CoreLine) -> Result<(), Trouble>
        ensures took { MatchResult result (λ _. TookCode line self.old self.new) (RefusesCode line) }
        ensures same { OnErr result (self.new ≡ self.old) }
    {
        let core = Core::new(byte(line.core)).ok_or(Trouble::NoCore(line.core))?;
        let code = Code::try_from(byte(line.code)).map_err(|_| Trouble::NoCode(line.code))?;
        self.codes[core.place()] = code;
        Ok(())
    }

    /// Takes what a line says, unless the plan refuses it or there is no such core or code.
    pub fn take(&mut self, line: Line) -> Result<(), Trouble>
        ensures took { MatchResult result (λ _. Took line self.old self.new) (Refuses line self.old) }
        ensures same { OnErr result (self.new ≡ self.old) }
    {
        match line {
            Line::Empty => Ok(()),
            Line::Handler(line) => self.add_handler(line),
            Line::Join(line) => self.add_join(line),
            Line::CoreCode(line) => self.set_code(line),
        }
    }

    // Takes one line of text; what follows a `#` is a comment. All lines have one list of words: to
    // make one takes longer than to read a short line.
    fn add_line<'t>(
        &mut self,
        text: &'t str,
        words: &mut ArrayVec<&'t str, WORDS>,
    ) -> Result<(), Trouble>
        ensures took { MatchResult result (λ _. TookText text.now self.old self.new) (RefusesText text.now self.old) }
        ensures same { OnErr result (self.new ≡ self.old) }
    {
        read_words(before_comment(text), words);
        let line = parse_words(words)?;
        self.take(line)
    }
}

fn before_comment(text: &str) -> &str
    ensures { result.now ≡ before_comment text.now }
{
    text.split_once('#').map_or(text, |(before, _)| before)
}

// Puts the first words of the text into the list, as many as are looked at, in place of what it
// held.
fn read_words<'t>(text: &'t str, words: &mut ArrayVec<&'t str, WORDS>)
    ensures { BeginsWith text.now (texts words.new.items) }
{
    words.clear();
    for word in text.split_whitespace() {
        if !words.is_full() {
            words.push(word);
        }
    }
}

/// Reads a whole list, up to the first line that is not taken.
pub fn read(text: &str) -> Result<Listing, Unlisted>
    ensures reads { MatchResult result (Lists (lines text.now)) (IsUnlisted (lines text.now)) }
    ensures one { OneListing }
    ensures taken { GoodLinesAreTaken }
    ensures one_refusal { OneRefusal }
{
    let mut list = Listing::new();
    let mut words = ArrayVec::new();
    for (at, line) in text.lines().enumerate() {
        list.add_line(line, &mut words).map_err(|trouble| Unlisted {
            line: at.saturating_add(1),
            trouble,
        })?;
    }
    Ok(list)
}

/// Ends a program: where it failed, says why, once, on standard error, and the status is 1.
pub fn finish(rt: &impl Eprint, outcome: anyhow::Result<()>) -> io::Result<ExitCode>
    ensures { IfOk result (λ code. code ≡ (if is_ok outcome then ExitCode.SUCCESS else ExitCode.FAILURE)) }
{
    // An error that `main` returns is printed behind the word `Error`.
    match outcome {
        Ok(()) => Ok(ExitCode::SUCCESS),
        Err(trouble) => {
            eprintln!(rt; "{trouble}")?;
            Ok(ExitCode::FAILURE)
        }
    }
}

#[cfg(test)]
mod tests;

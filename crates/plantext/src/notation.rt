// The text form of a plan, line by line.

ghost use Rattle.std.specs.Prelude.{◌≡◌, [], MatchResult};
ghost use Rattle.plantext.specs.Lines.{texts, key_text, Field, SaysHandler, SaysJoin, SaysCore, Says};
ghost use Rattle.plantext.specs.Problems.{LacksField, GoesOn, FailsHandler, FailsJoin, FailsCore, WrongWith, ProblemsTell, FirstWordsDecide};

use std::fmt;
use thiserror::Error;

/// A word that says what the number after it is.
#[derive(Clone, Copy, Debug)]
pub enum Key {
    Core,
    Period,
    Offset,
    Shortest,
    Longest,
    Code,
    First,
    Second,
}

impl Key {
    pub fn text(self) -> &'static str
        ensures { result.now ≡ key_text self }
    {
        match self {
            Key::Core => "core",
            Key::Period => "period",
            Key::Offset => "offset",
            Key::Shortest => "shortest",
            Key::Longest => "longest",
            Key::Code => "code",
            Key::First => "first",
            Key::Second => "second",
        }
    }
}

impl fmt::Display for Key {
    fn fmt<W: fmt::Write>(&self, f: &mut fmt::Formatter<W>) -> fmt::Result {
        f.write_str(self.text())
    }
}

/// The numbers of a handler, as a line gives them.
#[derive(Clone, Copy)]
pub struct HandlerLine {
    pub core: u16,
    pub period: u16,
    pub offset: u16,
    pub shortest: u16,
    pub longest: u16,
}

/// The numbers of two handlers, the first of which goes before the second.
#[derive(Clone, Copy)]
pub struct JoinLine {
    pub first: u16,
    pub second: u16,
}

/// The code of a core's discipline.
#[derive(Clone, Copy)]
pub struct CoreLine {
    pub core: u16,
    pub code: u16,
}

/// What a line says.
#[derive(Clone, Copy)]
pub enum Line {
    Empty,
    Handler(HandlerLine),
    Join(JoinLine),
    CoreCode(CoreLine),
}

/// What is wrong with a line.
#[derive(Clone, Copy, Debug, Error)]
pub enum Problem {
    #[error("a line begins with `handler`, `join` or `core`")]
    UnknownStart,
    #[error("expected `{0}` and a number")]
    NoField(Key),
    #[error("expected a number from 0 to 65535 after `{0}`")]
    NoNumber(Key),
    #[error("nothing may follow the last number")]
    MoreWords,
}

// The number of the field that the words begin with, and the words after it.
fn field<'a, 'b>(words: &'a [&'b str], key: Key) -> Result<(u16, &'a [&'b str]), Problem>
    ensures { let ws = texts words.now in
        MatchResult result (λ x. Field ws key x.0 (texts x.1.now)) (LacksField ws key) }
{
    match words {
        [name, number, rest @ ..] if *name == key.text() => {
            let number = number.parse().map_err(|_| Problem::NoNumber(key))?;
            Ok((number, rest))
        }
        _ => Err(Problem::NoField(key)),
    }
}

// Refuses words that stand after the last field.
fn end(words: &[&str]) -> Result<(), Problem>
    ensures { MatchResult result (λ _. texts words.now ≡ []) (GoesOn (texts words.now)) }
{
    match words {
        [] => Ok(()),
        _ => Err(Problem::MoreWords),
    }
}

// The line that goes on after `handler`.
fn handler(words: &[&str]) -> Result<HandlerLine, Problem>
    ensures { MatchResult result (SaysHandler (texts words.now)) (FailsHandler (texts words.now)) }
{
    let (core, words) = field(words, Key::Core)?;
    let (period, words) = field(words, Key::Period)?;
    let (offset, words) = field(words, Key::Offset)?;
    let (shortest, words) = field(words, Key::Shortest)?;
    let (longest, words) = field(words, Key::Longest)?;
    end(words)?;
    Ok(HandlerLine {
        core,
        period,
        offset,
        shortest,
        longest,
    })
}

// The line that goes on after `join`.
fn join(words: &[&str]) -> Result<JoinLine, Problem>
    ensures { MatchResult result (SaysJoin (texts words.now)) (FailsJoin (texts words.now)) }
{
    let (first, words) = field(words, Key::First)?;
    let (second, words) = field(words, Key::Second)?;
    end(words)?;
    Ok(JoinLine { first, second })
}

// The line that gives a core its code.
fn core(words: &[&str]) -> Result<CoreLine, Problem>
    ensures { MatchResult result (SaysCore (texts words.now)) (FailsCore (texts words.now)) }
{
    let (core, words) = field(words, Key::Core)?;
    let (code, words) = field(words, Key::Code)?;
    end(words)?;
    Ok(CoreLine { core, code })
}

/// What the words of a line say, or what is wrong with them. A line with no word says nothing, and
/// the first twelve words decide: no line has as many.
#[tactic(auto, using(crate::proofs::Telling::problems_tell, crate::proofs::FirstWords::first_words_decide))]
pub fn parse_words(words: &[&str]) -> Result<Line, Problem>
    ensures parses { MatchResult result (Says (texts words.now)) (WrongWith (texts words.now)) }
    ensures tell { ProblemsTell }
    ensures first_words { FirstWordsDecide }
{
    match words {
        [] => Ok(Line::Empty),
        ["handler", rest @ ..] => handler(rest).map(Line::Handler),
        ["join", rest @ ..] => join(rest).map(Line::Join),
        ["core", ..] => core(words).map(Line::CoreCode),
        _ => Err(Problem::UnknownStart),
    }
}

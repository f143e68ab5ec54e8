// The table.
ghost use Rattle.std.specs.Prelude.{◌≡◌};
ghost use Rattle.samples.specs.Samples.{on, before, row, long_work, chained, two_periods, two_marks, late_first, deadline_on_two, samples, SamplesKnown, LateFirstLeft};
ghost use Rattle.model.specs.declared.verdicts.Verdict.TheVariants.{Kept, Missed, RowsShort};
ghost use Rattle.literature.specs.Agreement.{ArticleAgrees, ArticleAgreesByCodes, LetterDiffers};

use crate::{Call, Sample};
use model::verdicts::{Rows, Verdict};
use plan::handlers::Handler;
use policy::codes::Code;

const FIXED: [Code; 8] = [Code::FixedPriority; 8];

const MONOTONIC: [Code; 8] = [Code::RateMonotonic; 8];

// The handler of a core, with its times, its period and its offset.
fn on(core: u8, shortest: u16, longest: u16, period: u16, offset: u16) -> Option<Call>
    ensures { result ≡ on core shortest longest period offset }
{
    Some(Call::Register(Handler {
        period,
        offset,
        shortest,
        longest,
        core,
    }))
}

fn before(first: u8, second: u8) -> Option<Call>
    ensures { result ≡ before first second }
{
    Some(Call::Join(first, second))
}

// One handler that may work past its period.
fn long_work() -> [Option<Call>; 8]
    ensures { result ≡ long_work }
{
    let mut calls = [None; 8];
    calls[0] = on(1, 1, 3, 2, 0);
    calls
}

// Five handlers on three cores, of one period: the first works from `shortest` to 2, the others 1.
fn chained(period: u16, shortest: u16) -> [Option<Call>; 8]
    ensures { result ≡ chained period shortest }
{
    [
        on(1, shortest, 2, period, 0),
        on(2, 1, 1, period, 0),
        on(3, 1, 1, period, 0),
        on(2, 1, 1, period, 0),
        on(3, 1, 1, period, 0),
        before(1, 2),
        before(3, 4),
        before(4, 5),
    ]
}

// Two periods, and one handler released late.
fn two_periods() -> [Option<Call>; 8]
    ensures { result ≡ two_periods }
{
    [
        on(1, 2, 2, 4, 0),
        on(1, 2, 2, 6, 0),
        on(2, 2, 2, 6, 0),
        on(2, 3, 3, 6, 4),
        before(2, 3),
        None,
        None,
        None,
    ]
}

// Two states at each mark time.
fn two_marks() -> [Option<Call>; 8]
    ensures { result ≡ two_marks }
{
    let mut calls = [None; 8];
    calls[0] = on(1, 1, 2, 4, 0);
    calls[1] = on(2, 1, 1, 4, 1);
    calls
}

// The first handler of core 1 is released a round after the others.
fn late_first() -> [Option<Call>; 8]
    ensures { result ≡ late_first }
{
    [
        on(1, 1, 1, 4, 4),
        on(1, 1, 1, 4, 0),
        on(2, 1, 1, 4, 0),
        on(2, 2, 2, 4, 0),
        before(2, 3),
        None,
        None,
        None,
    ]
}

// Rate-monotonic, but earliest deadline first on core 2.
fn deadline_on_two() -> [Code; 8]
    ensures { result ≡ deadline_on_two }
{
    let mut codes = MONOTONIC;
    codes[1] = Code::EarliestDeadline;
    codes
}

fn kept(rounds: u64, marks: u64) -> Verdict
    ensures { result ≡ Kept rounds marks }
{
    Verdict::Kept { rounds, marks }
}

fn missed(time: u64, number: u8) -> Verdict
    ensures { result ≡ Missed time number }
{
    Verdict::Missed { time, number }
}

fn short(rows: Rows, time: u64) -> Verdict
    ensures { result ≡ RowsShort rows time }
{
    Verdict::RowsShort { rows, time }
}

fn row(
    calls: [Option<Call>; 8],
    codes: [Code; 8],
    working: u16,
    marks: u16,
    verdict: Verdict,
) -> Sample
    ensures { result ≡ row calls codes working marks verdict }
{
    Sample {
        calls,
        codes,
        working,
        marks,
        verdict,
    }
}

/// Plans with known verdicts, each with the rows that it is checked with.
pub fn samples() -> [Sample; 12]
    ensures rows { result ≡ samples }
    ensures known { SamplesKnown }
    ensures left { LateFirstLeft }
    ensures article { ArticleAgrees }
    ensures article_codes { ArticleAgreesByCodes }
    ensures letter { LetterDiffers }
{
    [
        row([None; 8], FIXED, 128, 128, kept(1, 1)),
        row([None; 8], FIXED, 0, 128, short(Rows::Working, 0)),
        row(long_work(), FIXED, 128, 128, missed(2, 1)),
        row(chained(3, 1), FIXED, 128, 128, missed(3, 5)),
        row(chained(3, 2), FIXED, 128, 128, kept(1, 1)),
        row(chained(4, 1), FIXED, 2, 128, kept(1, 1)),
        row(chained(4, 1), FIXED, 1, 128, short(Rows::Working, 1)),
        row(two_periods(), MONOTONIC, 128, 128, missed(10, 4)),
        row(two_periods(), deadline_on_two(), 128, 128, kept(1, 1)),
        row(two_marks(), FIXED, 128, 128, kept(1, 2)),
        row(two_marks(), FIXED, 128, 1, short(Rows::Marks, 1)),
        row(late_first(), FIXED, 128, 128, kept(1, 1)),
    ]
}

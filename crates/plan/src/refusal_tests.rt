// Each refusal with its number and its message.
use crate::refusals::Refusal;
use std::test::Fail;

const REFUSALS: [(Refusal, u8, &str); 9] = [
    (Refusal::PlanFull, 1, "there are 64 handlers already"),
    (Refusal::NoPeriod, 2, "the period is 0"),
    (
        Refusal::NoTimes,
        3,
        "the shortest time is 0 or above the longest",
    ),
    (
        Refusal::NoSuchCore,
        4,
        "there is no such core: cores are 1 to 8",
    ),
    (Refusal::LongRound, 5, "the round would pass 16777216"),
    (
        Refusal::NoSuchHandler,
        6,
        "there is no handler of that number",
    ),
    (
        Refusal::OtherTimes,
        7,
        "joined handlers need equal periods and equal offsets",
    ),
    (Refusal::Circle, 8, "the join would close a circle"),
    (
        Refusal::UnfitTables,
        9,
        "one working table is longer than the other, or a table has more than 65535 rows",
    ),
];

#[test]
fn refusals_tell_their_number_and_why(rt: HostRuntime) -> Result<(), Fail> {
    let heap = rt.alloc();
    for (refusal, number, message) in REFUSALS {
        assert_eq!(rt; refusal.number(), number);
        assert_eq!(rt; refusal.to_string(heap)?.as_str(), message);
    }
    Ok(())
}

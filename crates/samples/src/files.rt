// The file of a small plan, whole and damaged, and the longest file.
use plan::handlers::Handler;
use plan::plans::Plan;
use plan::refusals::Refusal;
use planfile::faults::{Cause, Fault, Flaw};
use planfile::reading::Reader;
use planfile::reading::whole::read;
use planfile::writing::write;
use std::alloc::Global;
use std::process::Abort;
use std::test::Fail;

const LENGTH: usize = 48;

// Two handlers of one timing, the first before the second, and core 2 by earliest deadline first; a byte behind it.
const FILE: [u8; 49] = [
    1, 0, 4, 0, 0, 0, 1, 0, 2, 1, 1, 0, 4, 0, 0, 0, 1, 0, 1, 2, 2, 1, 2, 3, 1, 1, 3, 2, 3, 3, 3, 1,
    3, 4, 1, 3, 5, 1, 3, 6, 1, 3, 7, 1, 3, 8, 1, 4, 9,
];

// One byte of the file replaced, so many bytes of it handed over, and what is wrong with them.
#[derive(Clone, Copy)]
struct Damage {
    at: usize,
    byte: u8,
    length: usize,
    cause: Cause,
    place: usize,
}

// So many bytes of the file, as they are.
fn cut(length: usize, cause: Flaw, place: usize) -> Damage {
    Damage {
        at: 0,
        byte: 1,
        length,
        cause: Cause::File(cause),
        place,
    }
}

fn changed(at: usize, byte: u8, cause: Flaw, place: usize) -> Damage {
    Damage {
        at,
        byte,
        length: LENGTH,
        cause: Cause::File(cause),
        place,
    }
}

fn refused(at: usize, byte: u8, cause: Refusal, place: usize) -> Damage {
    Damage {
        at,
        byte,
        length: LENGTH,
        cause: Cause::Plan(cause),
        place,
    }
}

// The bytes end: at once, between records, in a record of each kind, before the end; and they go on after it.
fn ends() -> [Damage; 8] {
    [
        cut(0, Flaw::Cut, 0),
        cut(1, Flaw::Cut, 0),
        cut(10, Flaw::Cut, 10),
        cut(19, Flaw::Cut, 10),
        cut(22, Flaw::Cut, 20),
        cut(25, Flaw::Cut, 23),
        cut(47, Flaw::Cut, 47),
        cut(49, Flaw::OutOfOrder, 48),
    ]
}

// A record that cannot stand there: of no kind, of a kind before the last, a ninth core, an end too soon; or one that is
// out of turn: a join not after the last, a core that is not the next.
fn misplaced() -> [Damage; 8] {
    [
        changed(0, 0, Flaw::UnknownKind, 0),
        changed(10, 5, Flaw::UnknownKind, 10),
        changed(23, 1, Flaw::OutOfOrder, 23),
        changed(47, 3, Flaw::OutOfOrder, 47),
        changed(44, 4, Flaw::OutOfOrder, 44),
        changed(23, 2, Flaw::OutOfOrder, 23),
        changed(24, 2, Flaw::OutOfOrder, 23),
        changed(45, 9, Flaw::OutOfOrder, 44),
    ]
}

// Of two tests that a record fails the first is told: an unknown kind before a falling one, and the end of the bytes
// before a core out of turn.
fn failing_two() -> [Damage; 2] {
    let early = Damage {
        at: 45,
        byte: 0,
        length: 46,
        cause: Cause::File(Flaw::Cut),
        place: 44,
    };
    [changed(10, 0, Flaw::UnknownKind, 10), early]
}

// What a record says is refused: by the plan, or since a code is none.
fn untaken() -> [Damage; 9] {
    [
        refused(2, 0, Refusal::NoPeriod, 0),
        refused(6, 0, Refusal::NoTimes, 0),
        refused(9, 9, Refusal::NoSuchCore, 0),
        refused(22, 3, Refusal::NoSuchHandler, 20),
        refused(21, 0, Refusal::NoSuchHandler, 20),
        refused(12, 5, Refusal::OtherTimes, 20),
        refused(22, 1, Refusal::Circle, 20),
        changed(25, 0, Flaw::NoSuchCode, 23),
        changed(46, 4, Flaw::NoSuchCode, 44),
    ]
}

// The file with one byte replaced.
fn damaged(at: usize, byte: u8) -> [u8; 49] {
    let mut bytes = FILE;
    if let Some(here) = bytes.get_mut(at) {
        *here = byte;
    }
    bytes
}

// Reads the damaged file over a plan and codes.
fn read_damaged(damage: &Damage, plan: &mut Plan, codes: &mut [u8; 8]) -> Result<(), Fault> {
    let bytes = damaged(damage.at, damage.byte);
    read(&bytes[..damage.length.min(49)], plan, codes)
}

// Each is refused for its cause at its place, and leaves the plan and the codes as they were.
fn refuses(rt: &impl Abort, damages: &[Damage]) -> Result<(), Fail> {
    for damage in damages {
        let mut plan = Plan::new();
        let mut codes = [7; 8];
        let fault = Fault {
            cause: damage.cause,
            place: damage.place,
        };
        assert_eq!(rt; read_damaged(damage, &mut plan, &mut codes), Err(fault));
        assert_eq!(rt; plan.count(), 0);
        assert_eq!(rt; codes, [7; 8]);
    }
    Ok(())
}

#[test]
fn damaged_files_are_refused(rt: HostRuntime) -> Result<(), Fail> {
    refuses(&rt, &ends())?;
    refuses(&rt, &misplaced())?;
    refuses(&rt, &failing_two())?;
    refuses(&rt, &untaken())
}

// So many handlers in a row, and nothing else.
fn handlers() -> [u8; 650] {
    let mut bytes = [0; 650];
    for (at, byte) in bytes.iter_mut().enumerate() {
        *byte = FILE[at % 10];
    }
    bytes
}

// The bytes are refused: by the test of this number, and in these words.
fn told(rt: &impl Abort, heap: Global, bytes: &[u8], what: &str) -> Result<(), Fail> {
    let (mut plan, mut codes) = (Plan::new(), [7; 8]);
    let said = match read(bytes, &mut plan, &mut codes) {
        Ok(()) => format!(in heap; "read")?,
        Err(fault) => format!(in heap; "{} {fault}", fault.cause.number())?,
    };
    assert_eq!(rt; said.as_str(), what);
    Ok(())
}

#[test]
fn each_refusal_by_the_plan_is_told(rt: HostRuntime) -> Result<(), Fail> {
    let heap = rt.alloc();
    told(
        &rt,
        heap,
        &handlers(),
        "1 at byte 640: there are 64 handlers already",
    )?;
    told(&rt, heap, &damaged(2, 0), "2 at byte 0: the period is 0")?;
    told(
        &rt,
        heap,
        &damaged(6, 0),
        "3 at byte 0: the shortest time is 0 or above the longest",
    )?;
    told(
        &rt,
        heap,
        &damaged(9, 9),
        "4 at byte 0: there is no such core: cores are 1 to 8",
    )?;
    let long = [
        1, 255, 255, 0, 0, 0, 1, 0, 2, 1, 1, 255, 254, 0, 0, 0, 1, 0, 2, 1,
    ];
    told(
        &rt,
        heap,
        &long,
        "5 at byte 10: the round would pass 16777216",
    )?;
    told(
        &rt,
        heap,
        &damaged(22, 3),
        "6 at byte 20: there is no handler of that number",
    )?;
    told(
        &rt,
        heap,
        &damaged(12, 5),
        "7 at byte 20: joined handlers need equal periods and equal offsets",
    )?;
    told(
        &rt,
        heap,
        &damaged(22, 1),
        "8 at byte 20: the join would close a circle",
    )
}

#[test]
fn each_refusal_of_a_file_is_told(rt: HostRuntime) -> Result<(), Fail> {
    let heap = rt.alloc();
    told(
        &rt,
        heap,
        &FILE[..47],
        "10 at byte 47: the file ends inside a record, or before its end record",
    )?;
    told(
        &rt,
        heap,
        &damaged(0, 5),
        "11 at byte 0: there is no such kind of record: kinds are 1 to 4",
    )?;
    told(
        &rt,
        heap,
        &FILE,
        "12 at byte 48: the record does not stand in the order of a file",
    )?;
    told(
        &rt,
        heap,
        &damaged(25, 4),
        "13 at byte 23: there is no such code: codes are 1, 2 and 3",
    )?;
    let flaw = write(&Plan::new(), &[1; 8], &mut [0; 24])
        .err()
        .unwrap_or(Flaw::Cut);
    let said = format!(in heap; "{} {flaw}", flaw.number())?;
    assert_eq!(rt; said.as_str(), "14 the file is longer than the room for it");
    Ok(())
}

// Goes over the twelve records of the file.
fn pass_file(rt: &impl Abort, reader: &mut Reader) -> Result<(), Fail> {
    for _ in 0..12 {
        assert_eq!(rt; reader.next_record()?.is_some(), true);
    }
    Ok(())
}

// Behind the end record there is none, however often it is asked for.
#[test]
fn a_reader_ends_where_the_file_ends(rt: HostRuntime) -> Result<(), Fail> {
    let mut reader = Reader::new(&FILE[..LENGTH]);
    pass_file(&rt, &mut reader)?;
    assert_eq!(rt; reader.next_record()?.is_none(), true);
    assert_eq!(rt; reader.next_record()?.is_none(), true);
    Ok(())
}

// A byte behind the end record is out of order, be it of no kind or a second end, however often it is asked for.
#[test]
fn no_byte_stands_behind_the_end(rt: HostRuntime) -> Result<(), Fail> {
    for byte in [0, 1, 4, 9] {
        let bytes = damaged(LENGTH, byte);
        let mut reader = Reader::new(&bytes);
        pass_file(&rt, &mut reader)?;
        let fault = Fault {
            cause: Cause::File(Flaw::OutOfOrder),
            place: LENGTH,
        };
        assert_eq!(rt; reader.next_record().err(), Some(fault));
        assert_eq!(rt; reader.next_record().err(), Some(fault));
    }
    Ok(())
}

// No join stands before the first: its numbers may be any, for the file, and the plan refuses them.
#[test]
fn the_first_join_is_in_order(rt: HostRuntime) -> Result<(), Fail> {
    let mut plan = Plan::new();
    let mut codes = [7; 8];
    let fault = Fault {
        cause: Cause::Plan(Refusal::NoSuchHandler),
        place: 0,
    };
    assert_eq!(rt; read(&[2, 0, 0], &mut plan, &mut codes), Err(fault));
    Ok(())
}

#[test]
fn what_is_read_is_written(rt: HostRuntime) -> Result<(), Fail> {
    let mut plan = Plan::new();
    let mut codes = [0; 8];
    read(&FILE[..LENGTH], &mut plan, &mut codes)?;
    assert_eq!(rt; plan.count(), 2);
    assert_eq!(rt; plan.joined(1, 2), true);
    assert_eq!(rt; codes, [1, 3, 1, 1, 1, 1, 1, 1]);
    let mut buffer = [9; 49];
    assert_eq!(rt; write(&plan, &codes, &mut buffer), Ok(LENGTH));
    assert_eq!(rt; buffer, FILE);
    assert_eq!(rt; write(&plan, &codes, &mut buffer[..47]), Err(Flaw::NoRoom));
    codes[7] = 4;
    assert_eq!(rt;
        write(&plan, &codes, &mut buffer[..47]),
        Err(Flaw::NoSuchCode)
    );
    assert_eq!(rt; buffer, FILE);
    Ok(())
}

// Joins the handler of this number before all later ones.
fn join_all_later(plan: &mut Plan, first: u8) -> Result<(), Refusal> {
    for second in first.saturating_add(1)..=plan.count() {
        plan.join(first, second)?;
    }
    Ok(())
}

// As many handlers and joins as a plan can have.
fn fullest() -> Result<Plan, Refusal> {
    let mut plan = Plan::new();
    for _ in 0..64 {
        plan.register(Handler {
            period: 65_535,
            offset: 65_535,
            shortest: 1,
            longest: 65_535,
            core: 8,
        })?;
    }
    for first in 1..=64 {
        join_all_later(&mut plan, first)?;
    }
    Ok(plan)
}

#[test]
fn the_longest_file_is_read_back(rt: HostRuntime) -> Result<(), Fail> {
    let mut buffer = [0; 6713];
    assert_eq!(rt; write(&fullest()?, &[2; 8], &mut buffer), Ok(6713));
    let mut plan = Plan::new();
    let mut codes = [0; 8];
    read(&buffer, &mut plan, &mut codes)?;
    assert_eq!(rt; plan.count(), 64);
    assert_eq!(rt; plan.joined(63, 64), true);
    assert_eq!(rt; plan.joined(64, 63), false);
    assert_eq!(rt; codes, [2; 8]);
    Ok(())
}

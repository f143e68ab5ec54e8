// Writing the file of a plan and the codes of its cores: how long it is first, and only then its bytes.
ghost use Rattle.std.specs.Prelude.{◌≡◌, ◌+◌, ◌≤◌, length};
ghost use Rattle.plan.specs.Contents.{contents};
ghost use Rattle.planfile.specs.Files.{handler_record, handler_records, record_if_joined, joins_from, join_records, core_records, file_of};
ghost use Rattle.planfile.specs.Theorems.{WrittenIsRead, LongestFile};
ghost use Rattle.planfile.specs.Writes.{record_if_known, Puts, Writes};

use crate::faults::Flaw;
use crate::records::{CORE, END, HANDLER, JOIN, record_length};
use plan::handlers::Handler;
use plan::plans::Plan;
use policy::codes::Code;

// ---- records

fn handler_record(handler: Handler) -> [u8; 10]
    ensures { result ≡ handler_record handler }
{
    let [period_high, period_low] = handler.period.to_be_bytes();
    let [offset_high, offset_low] = handler.offset.to_be_bytes();
    let [shortest_high, shortest_low] = handler.shortest.to_be_bytes();
    let [longest_high, longest_low] = handler.longest.to_be_bytes();
    [
        HANDLER,
        period_high,
        period_low,
        offset_high,
        offset_low,
        shortest_high,
        shortest_low,
        longest_high,
        longest_low,
        handler.core,
    ]
}

// ---- putting records into a buffer: each function puts them from a place on, and answers the place behind them

fn put(buffer: &mut [u8], place: usize, bytes: &[u8]) -> usize
    requires { place + length bytes.now ≤ length buffer.old }
    ensures { Puts buffer.old place bytes.now result buffer.new }
{
    let next = place + bytes.len();
    buffer[place..next].copy_from_slice(bytes);
    next
}

fn put_handler(plan: &Plan, number: u8, buffer: &mut [u8], place: usize) -> usize
    requires { place + length (record_if_known (contents plan.now) number) ≤ length buffer.old }
    ensures { Puts buffer.old place (record_if_known (contents plan.now) number) result buffer.new }
{
    match plan.handler(number) {
        Some(handler) => put(buffer, place, &handler_record(handler)),
        None => place,
    }
}

fn put_handlers(plan: &Plan, buffer: &mut [u8], place: usize) -> usize
    requires { place + length (handler_records (contents plan.now)) ≤ length buffer.old }
    ensures { Puts buffer.old place (handler_records (contents plan.now)) result buffer.new }
{
    let mut next = place;
    for number in 1..=plan.count() {
        next = put_handler(plan, number, buffer, next);
    }
    next
}

fn put_join(plan: &Plan, first: u8, second: u8, buffer: &mut [u8], place: usize) -> usize
    requires { place + length (record_if_joined (contents plan.now) first second) ≤ length buffer.old }
    ensures { Puts buffer.old place (record_if_joined (contents plan.now) first second) result buffer.new }
{
    if plan.joined(first, second) {
        put(buffer, place, &[JOIN, first, second])
    } else {
        place
    }
}

fn put_joins_from(plan: &Plan, first: u8, buffer: &mut [u8], place: usize) -> usize
    requires { place + length (joins_from (contents plan.now) first) ≤ length buffer.old }
    ensures { Puts buffer.old place (joins_from (contents plan.now) first) result buffer.new }
{
    let mut next = place;
    for second in 1..=plan.count() {
        next = put_join(plan, first, second, buffer, next);
    }
    next
}

fn put_joins(plan: &Plan, buffer: &mut [u8], place: usize) -> usize
    requires { place + length (join_records (contents plan.now)) ≤ length buffer.old }
    ensures { Puts buffer.old place (join_records (contents plan.now)) result buffer.new }
{
    let mut next = place;
    for first in 1..=plan.count() {
        next = put_joins_from(plan, first, buffer, next);
    }
    next
}

fn put_cores(codes: &[u8; 8], buffer: &mut [u8], place: usize) -> usize
    requires { place + length (core_records 1 codes.now) ≤ length buffer.old }
    ensures { Puts buffer.old place (core_records 1 codes.now) result buffer.new }
{
    let mut next = place;
    for core in 1..=8 {
        next = put(buffer, next, &[CORE, core, codes[core as usize - 1]]);
    }
    next
}

fn put_file(plan: &Plan, codes: &[u8; 8], buffer: &mut [u8]) -> usize
    requires { length (file_of (contents plan.now) codes.now) ≤ length buffer.old }
    ensures { Puts buffer.old 0 (file_of (contents plan.now) codes.now) result buffer.new }
{
    let after_handlers = put_handlers(plan, buffer, 0);
    let after_joins = put_joins(plan, buffer, after_handlers);
    let after_cores = put_cores(codes, buffer, after_joins);
    put(buffer, after_cores, &[END])
}

// ---- the length of a file

fn join_length(plan: &Plan, first: u8, second: u8) -> usize
    ensures { result ≡ length (record_if_joined (contents plan.now) first second) }
{
    if plan.joined(first, second) {
        record_length(JOIN)
    } else {
        0
    }
}

fn joins_length_from(plan: &Plan, first: u8) -> usize
    ensures { result ≡ length (joins_from (contents plan.now) first) }
{
    let mut length = 0;
    for second in 1..=plan.count() {
        length += join_length(plan, first, second);
    }
    length
}

fn joins_length(plan: &Plan) -> usize
    ensures { result ≡ length (join_records (contents plan.now)) }
{
    let mut length = 0;
    for first in 1..=plan.count() {
        length += joins_length_from(plan, first);
    }
    length
}

// The records of the handlers, of the joins, of the cores, and the end.
fn file_length(plan: &Plan, codes: &[u8; 8]) -> usize
    ensures { result ≡ length (file_of (contents plan.now) codes.now) }
{
    record_length(HANDLER) * plan.count() as usize
        + joins_length(plan)
        + record_length(CORE) * codes.len()
        + record_length(END)
}

/// Writes the file of the plan and these codes, of the cores 1 to 8, to the front of the buffer, and answers its
/// length. Refused, it leaves the buffer as it was.
pub fn write(plan: &Plan, codes: &[u8; 8], buffer: &mut [u8]) -> Result<usize, Flaw>
    ensures writes { Writes (contents plan.now) codes.now buffer.old result buffer.new }
    ensures read_back { WrittenIsRead }
    ensures longest { LongestFile }
{
    if codes.iter().any(|code| Code::try_from(*code).is_err()) {
        return Err(Flaw::NoSuchCode);
    }
    if buffer.len() < file_length(plan, codes) {
        return Err(Flaw::NoRoom);
    }
    Ok(put_file(plan, codes, buffer))
}

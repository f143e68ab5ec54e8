// A plan as text and as a file, and what is said of text and of bytes that are neither.
use super::*;
use std::alloc::{AllocError, Global};
use std::test::Fail;

// Written by hand, as somebody writes it.
const WRITTEN: &str = "\
# Two cores of a vending controller.
core 1 code 2
core 2 code 3

handler core 1 period 6 offset 0 shortest 1 longest 4
handler core 1 period 4 offset 0 shortest 1 longest 1
handler core 2 period 6 offset 0 shortest 2 longest 2
handler core 2 period 4 offset 1 shortest 1 longest 1   # the bill validator
join first 1 second 3
";

// The same as it is printed.
const PRINTED: &str = "\
core 1 code 2
core 2 code 3
core 3 code 1
core 4 code 1
core 5 code 1
core 6 code 1
core 7 code 1
core 8 code 1
handler core 1 period 6 offset 0 shortest 1 longest 4
handler core 1 period 4 offset 0 shortest 1 longest 1
handler core 2 period 6 offset 0 shortest 2 longest 2
handler core 2 period 4 offset 1 shortest 1 longest 1
join first 1 second 3
";

const FILE: [u8; 68] = [
    1, 0, 6, 0, 0, 0, 1, 0, 4, 1, // the handlers
    1, 0, 4, 0, 0, 0, 1, 0, 1, 1, //
    1, 0, 6, 0, 0, 0, 2, 0, 2, 2, //
    1, 0, 4, 0, 1, 0, 1, 0, 1, 2, //
    2, 1, 3, // the join
    3, 1, 2, 3, 2, 3, 3, 3, 1, 3, 4, 1, 3, 5, 1, 3, 6, 1, 3, 7, 1, 3, 8, 1, // the cores
    4,
];

#[test]
fn a_plan_is_turned_into_its_file_and_back(rt: HostRuntime) -> Result<(), Fail> {
    assert_eq!(rt; to_file(WRITTEN)?.as_slice(), FILE.as_slice());
    let text = to_text(&FILE)?;
    assert_eq!(rt; text.as_str(), PRINTED);
    assert_eq!(rt; to_file(text.as_str())?.as_slice(), FILE.as_slice());
    Ok(())
}

// As many handlers as there can be, with the widest numbers, and each joined before all behind it.
fn widest(heap: Global) -> Result<String, AllocError> {
    let mut text = String::new(heap);
    for core in 1..=8 {
        writeln!(text, "core {core} code 3")?;
    }
    for _ in 0..64 {
        let line = "handler core 8 period 65535 offset 65535 shortest 65535 longest 65535\n";
        text.push_str(line)?;
    }
    for first in 1..=64 {
        for second in 1..=64 {
            if first < second {
                writeln!(text, "join first {first} second {second}")?;
            }
        }
    }
    Ok(text)
}

#[test]
fn the_longest_file_is_made_and_comes_back(rt: HostRuntime) -> Result<(), Fail> {
    let text = widest(rt.alloc())?;
    let file = to_file(text.as_str())?;
    assert_eq!(rt; file.len(), 6_713);
    assert_eq!(rt; to_text(&file)?.as_str(), text.as_str());
    Ok(())
}

// So many bytes of the file, and what is said of them.
const DAMAGED: [(usize, &str); 3] = [
    (
        0,
        "byte 0: refused with 10: the file ends inside a record, or before its end record",
    ),
    (
        42,
        "byte 40: refused with 10: the file ends inside a record, or before its end record",
    ),
    (
        67,
        "byte 67: refused with 10: the file ends inside a record, or before its end record",
    ),
];

#[test]
fn bytes_that_are_no_file_are_told(rt: HostRuntime) -> Result<(), Fail> {
    let heap = rt.alloc();
    for (length, message) in DAMAGED {
        match to_text(&FILE[..length.min(FILE.len())]) {
            Ok(_) => return Err(Fail::new("this is no whole file")),
            Err(unread) => assert_eq!(rt; unread.to_string(heap)?.as_str(), message),
        }
    }
    Ok(())
}

#[test]
fn a_refusal_of_the_plan_is_told(rt: HostRuntime) -> Result<(), Fail> {
    let heap = rt.alloc();
    match to_text(&[1, 0, 0, 0, 0, 0, 1, 0, 1, 1]) {
        Ok(_) => Err(Fail::new("the period is 0")),
        Err(unread) => {
            assert_eq!(rt;
                unread.to_string(heap)?.as_str(),
                "byte 0: refused with 2: the period is 0"
            );
            Ok(())
        }
    }
}

#[test]
fn a_bad_line_is_told(rt: HostRuntime) -> Result<(), Fail> {
    let heap = rt.alloc();
    match to_file("core 1 code 2\nhandler core 1 period 0 offset 0 shortest 1 longest 1\n") {
        Ok(_) => Err(Fail::new("the period is 0")),
        Err(trouble) => {
            assert_eq!(rt;
                trouble.to_string(heap)?.as_str(),
                "line 2: refused with 2: the period is 0"
            );
            Ok(())
        }
    }
}

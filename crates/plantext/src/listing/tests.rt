// Lines that are taken, and lines that are refused, with what is said of them.
use super::*;
use std::alloc::{AllocError, Global};
use std::test::Fail;

// Lines, each with what is wrong with it; nothing where it is taken.
const CASES: &str = "|
  # only a comment|
\thandler  core 8 period 65535 offset 65535 shortest 65535 longest 65535 # at its edges|
core 3 code 2|
hander core 1|a line begins with `handler`, `join` or `core`
handler|expected `core` and a number
handler core 1 offset 0|expected `period` and a number
handler core 1 period x offset 0|expected a number from 0 to 65535 after `period`
handler core 1 period 65536 offset 0|expected a number from 0 to 65535 after `period`
handler core 1 period 2 longest 2|expected `offset` and a number
handler core 1 period 2 offset 0 longest 2|expected `shortest` and a number
handler core 1 period 2 offset 0 shortest 1 longest|expected `longest` and a number
handler core 1 period 2 offset 0 shortest 1 longest 2 0|nothing may follow the last number
handler core 1 period 0 offset 0 shortest 1 longest 2|refused with 2: the period is 0
handler core 1 period 2 offset 0 shortest 3 longest 2|refused with 3: the shortest time is 0 or above the longest
handler core 9 period 2 offset 0 shortest 1 longest 2|refused with 4: there is no such core: cores are 1 to 8
handler core 257 period 2 offset 0 shortest 1 longest 2|refused with 4: there is no such core: cores are 1 to 8
join second 1|expected `first` and a number
join first 1|expected `second` and a number
join first 1 second +|expected a number from 0 to 65535 after `second`
join first 1 second 2|refused with 6: there is no handler of that number
core 0 code 1|there is no core 0: cores are 1 to 8
core 256 code 1|there is no core 256: cores are 1 to 8
core 1 code 4|there is no code 4: codes are 1, 2 and 3
core 1 code|expected `code` and a number
core 1 code 1 1 1 1 1 1 1 1 1 1 1|nothing may follow the last number";

fn trouble(heap: Global, list: &mut Listing, line: &str) -> Result<String, AllocError> {
    match list.add_line(line, &mut ArrayVec::new()) {
        Ok(()) => Ok(String::new(heap)),
        Err(trouble) => format!(in heap; "{trouble}"),
    }
}

#[test]
fn lines_are_taken_or_told(rt: HostRuntime) -> Result<(), Fail> {
    let heap = rt.alloc();
    for case in CASES.lines() {
        let (line, message) = case.split_once('|').ok_or("a case has two parts")?;
        let mut list = Listing::new();
        assert_eq!(rt; trouble(heap, &mut list, line)?.as_str(), message);
    }
    Ok(())
}

#[test]
fn the_bad_line_is_named(rt: HostRuntime) -> Result<(), Fail> {
    let heap = rt.alloc();
    let text = "# cores\n\ncore 1 code 2\njoin first 1 second 1\n";
    match read(text) {
        Ok(_) => Err(Fail::new("the fourth line is bad")),
        Err(trouble) => {
            assert_eq!(rt;
                trouble.to_string(heap)?.as_str(),
                "line 4: refused with 6: there is no handler of that number"
            );
            Ok(())
        },
    }
}

// The text form of a plan, added to a text line by line. Each function needs room for what it adds.
ghost use Rattle.std.specs.Prelude.{◌≡◌, ◌+◌, ◌≤◌, ◌++◌, length, decimal};
ghost use Rattle.plan.specs.Contents.{contents};
ghost use Rattle.plantext.specs.Texts.{core_line, handler_line, join_line, core_lines, handler_lines, line_if_known, line_if_joined, lines_from, join_lines, text_of};
ghost use Rattle.plantext.specs.RoundTrips.{longest_text};

use arrayvec::ArrayString;
use itoa::Buffer;
use plan::handlers::Handler;
use plan::plans::Plan;

// No text of a plan is longer: 8 lines of cores with 14 bytes, 64 of handlers with 70, and 2,016 of
// joins with 24.
const LONGEST_TEXT: usize = 52_976;

/// The text form of a plan.
pub type Text = ArrayString<LONGEST_TEXT>;

// ---- one line

// The words before a number, and the number.
fn push_field(text: &mut Text, words: &str, number: u16)
    requires { length text.old.bytes + (length words.now + length (decimal number)) ≤ longest_text }
    ensures { text.new.bytes ≡ text.old.bytes ++ (words.now ++ decimal number) }
{
    text.push_str(words);
    text.push_str(Buffer::new().format(number));
}

fn add_core(text: &mut Text, core: u8, code: u8)
    requires { length text.old.bytes + length (core_line core code) ≤ longest_text }
    ensures { text.new.bytes ≡ text.old.bytes ++ core_line core code }
{
    push_field(text, "core ", core.into());
    push_field(text, " code ", code.into());
    text.push_str("\n");
}

fn add_handler(text: &mut Text, handler: Handler)
    requires { length text.old.bytes + length (handler_line handler) ≤ longest_text }
    ensures { text.new.bytes ≡ text.old.bytes ++ handler_line handler }
{
    push_field(text, "handler core ", handler.core.into());
    push_field(text, " period ", handler.period);
    push_field(text, " offset ", handler.offset);
    push_field(text, " shortest ", handler.shortest);
    push_field(text, " longest ", handler.longest);
    text.push_str("\n");
}

fn add_join(text: &mut Text, first: u8, second: u8)
    requires { length text.old.bytes + length (join_line first second) ≤ longest_text }
    ensures { text.new.bytes ≡ text.old.bytes ++ join_line first second }
{
    push_field(text, "join first ", first.into());
    push_field(text, " second ", second.into());
    text.push_str("\n");
}

// ---- the lines of all cores, of all handlers and of all joins

fn add_cores(text: &mut Text, codes: &[u8; 8])
    requires { length text.old.bytes + length (core_lines codes.now) ≤ longest_text }
    ensures { text.new.bytes ≡ text.old.bytes ++ core_lines codes.now }
{
    for core in 1..=8 {
        add_core(text, core, codes[core as usize - 1]);
    }
}

fn add_if_known(text: &mut Text, plan: &Plan, number: u8)
    requires { let line = line_if_known (contents plan.now) number in
        length text.old.bytes + length line ≤ longest_text }
    ensures { text.new.bytes ≡ text.old.bytes ++ line_if_known (contents plan.now) number }
{
    if let Some(handler) = plan.handler(number) {
        add_handler(text, handler);
    }
}

fn add_handlers(text: &mut Text, plan: &Plan)
    requires { length text.old.bytes + length (handler_lines (contents plan.now)) ≤ longest_text }
    ensures { text.new.bytes ≡ text.old.bytes ++ handler_lines (contents plan.now) }
{
    for number in 1..=plan.count() {
        add_if_known(text, plan, number);
    }
}

fn add_if_joined(text: &mut Text, plan: &Plan, first: u8, second: u8)
    requires { let line = line_if_joined (contents plan.now) first second in
        length text.old.bytes + length line ≤ longest_text }
    ensures { text.new.bytes ≡ text.old.bytes ++ line_if_joined (contents plan.now) first second }
{
    if plan.joined(first, second) {
        add_join(text, first, second);
    }
}

fn add_joins_from(text: &mut Text, plan: &Plan, first: u8)
    requires { let lines = lines_from (contents plan.now) first in
        length text.old.bytes + length lines ≤ longest_text }
    ensures { text.new.bytes ≡ text.old.bytes ++ lines_from (contents plan.now) first }
{
    for second in 1..=plan.count() {
        add_if_joined(text, plan, first, second);
    }
}

fn add_joins(text: &mut Text, plan: &Plan)
    requires { length text.old.bytes + length (join_lines (contents plan.now)) ≤ longest_text }
    ensures { text.new.bytes ≡ text.old.bytes ++ join_lines (contents plan.now) }
{
    for first in 1..=plan.count() {
        add_joins_from(text, plan, first);
    }
}

// The whole text of a plan and the codes of the cores 1 to 8.
pub(crate) fn printed(plan: &Plan, codes: &[u8; 8]) -> Text
    requires { length (text_of (contents plan.now) codes.now) ≤ longest_text }
    ensures { result.bytes ≡ text_of (contents plan.now) codes.now }
{
    let mut text = Text::new();
    add_cores(&mut text, codes);
    add_handlers(&mut text, plan);
    add_joins(&mut text, plan);
    text
}

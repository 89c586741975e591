// The lines of answers under one table, put into a buffer at `at`.
#![tactic(auto)]

ghost use Rattle.std.specs.Prelude.{◌≡◌, [], ◌∷◌, ◌++◌, ◌+◌, ◌≤◌, length, take};
ghost use Rattle.rules.specs.Answer.{answer, refused, as_numbered, answer_of};
ghost use Rattle.rules.specs.Partitions.{partitions};
ghost use Rattle.rules.specs.Limits.{longest_text};
ghost use Rattle.tables.specs.Accept.{StampsFacts};
ghost use Rattle.number_text.specs.Numbers.{decimal_of};
ghost use Rattle.command_rules.specs.Fields.{field};
ghost use Rattle.command_rules.specs.Lines.{answered_line, print_by, both_fields, time_fields, time_line, count_field};
ghost use Rattle.command_answers.specs.Put.{longest_line, PutLine};

use accepted_calls::stamp_print;
use command_text::put_both;
use number_text::{put_byte, put_bytes, put_front, put_number};
use refusal_text::put_refusal;
use rules::{CountAtTime, Layout, Refusal, TimedStamp};
use tables::Basis;

// The place after the line that was put, and whether the line of input is answered well.
#[derive(Clone, Copy)]
pub struct Put {
    pub at: usize,
    pub well: bool,
}

const TAB: u8 = b'\t';

const LINE_END: u8 = b'\n';

// A stamp's count, time and print, or what it is refused.
#[tactic(auto, unfolding(command_rules::specs::Lines::time_line, rules::specs::Answer::and_then))]
pub fn put_timed(
    seconds: bool,
    layout: Layout,
    basis: Basis,
    starts: &[u64],
    ends: &[u64],
    given: Result<TimedStamp, Refusal>,
    out: &mut [u8],
    at: usize,
) -> Put
    requires stamps_facts { StampsFacts layout (partitions starts.now ends.now) basis }
    requires longest_line_in_bounds { at + longest_line ≤ length out.old }
    ensures { PutLine (time_line seconds layout (partitions starts.now ends.now) (answer_of given)) result at out.old out.new }
{
    match given {
        Ok(stamp) => put_stamp(seconds, layout, basis, starts, ends, stamp, out, at),
        Err(k) => put_refused(out, at, k),
    }
}

fn put_stamp(
    seconds: bool,
    layout: Layout,
    basis: Basis,
    starts: &[u64],
    ends: &[u64],
    stamp: TimedStamp,
    out: &mut [u8],
    at: usize,
) -> Put
    requires stamps_facts { StampsFacts layout (partitions starts.now ends.now) basis }
    requires longest_line_in_bounds { at + longest_line ≤ length out.old }
    ensures { PutLine (answered_line (time_fields seconds layout (partitions starts.now ends.now) stamp)) result at out.old out.new }
{
    let mut buffer = [0u8; 96];
    match stamp_print(layout, basis, starts, ends, stamp.count, &mut buffer) {
        Ok(n) => put_fields(seconds, stamp, &buffer, n, out, at),
        Err(k) => put_refused(out, at, k),
    }
}

// A count, its time, and its print at the front of the buffer.
fn put_fields(
    seconds: bool,
    stamp: TimedStamp,
    buffer: &[u8],
    n: usize,
    out: &mut [u8],
    at: usize,
) -> Put
    requires n_le_longest_text { (n ≤ longest_text) × (n ≤ length buffer.now) }
    requires longest_line_in_bounds { at + longest_line ≤ length out.old }
    ensures { PutLine (answered_line (answer (field (both_fields seconds stamp) (take n buffer.now)))) result at out.old out.new }
{
    let place = put_both(out, at, stamp, seconds, TAB);
    let end = put_front(out, place, buffer, n);
    let next = put_byte(out, end, LINE_END);
    Put {
        at: next,
        well: true,
    }
}

// The stamp of an encoded count, or what it is refused.
pub fn put_print(
    layout: Layout,
    basis: Basis,
    starts: &[u64],
    ends: &[u64],
    encoded: u64,
    out: &mut [u8],
    at: usize,
) -> Put
    requires stamps_facts { StampsFacts layout (partitions starts.now ends.now) basis }
    requires longest_line_in_bounds { at + longest_line ≤ length out.old }
    ensures { PutLine (answered_line (print_by layout (partitions starts.now ends.now) encoded)) result at out.old out.new }
{
    let mut buffer = [0u8; 96];
    match stamp_print(layout, basis, starts, ends, encoded, &mut buffer) {
        Ok(n) => put_text(&buffer, n, out, at),
        Err(k) => put_refused(out, at, k),
    }
}

fn put_text(buffer: &[u8], n: usize, out: &mut [u8], at: usize) -> Put
    requires n_le_longest_text { (n ≤ longest_text) × (n ≤ length buffer.now) }
    requires longest_line_in_bounds { at + longest_line ≤ length out.old }
    ensures { PutLine (answered_line (answer (take n buffer.now))) result at out.old out.new }
{
    let end = put_front(out, at, buffer, n);
    let next = put_byte(out, end, LINE_END);
    Put {
        at: next,
        well: true,
    }
}

// An encoded count, or what it is refused.
#[tactic(auto, unfolding(command_rules::specs::Lines::count_field, rules::specs::Answer::and_then))]
pub fn put_count(given: Result<CountAtTime, Refusal>, out: &mut [u8], at: usize) -> Put
    requires { at + longest_line ≤ length out.old }
    ensures { PutLine (answered_line (count_field (answer_of given))) result at out.old out.new }
{
    match given {
        Ok(c) => put_counted(c.count, out, at),
        Err(k) => put_refused(out, at, k),
    }
}

fn put_counted(count: u64, out: &mut [u8], at: usize) -> Put
    requires { at + longest_line ≤ length out.old }
    ensures { PutLine (answered_line (answer (decimal_of count))) result at out.old out.new }
{
    let next = put_number(out, at, count, LINE_END);
    Put {
        at: next,
        well: true,
    }
}

// `refused`, and the refusal.
pub fn put_refused(out: &mut [u8], at: usize, refusal: Refusal) -> Put
    requires { at + longest_line ≤ length out.old }
    ensures { PutLine (answered_line (refused (as_numbered refusal))) result at out.old out.new }
{
    let place = put_bytes(out, at, b"refused\t");
    let next = put_refusal(out, place, refusal, LINE_END);
    Put {
        at: next,
        well: false,
    }
}

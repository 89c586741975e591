// The segments of a table's description, a line each with the gap or the step back behind it, put into a buffer as far as it goes.
#![tactic(auto)]

ghost use Rattle.std.specs.Prelude.{◌++◌, ◌+◌, ◌≤◌, ◌<◌, length};
ghost use Rattle.rules.specs.Segments.{segments};
ghost use Rattle.decimal.specs.Writing.{Written};
ghost use Rattle.command_rules.specs.Fields.{rate_text, last_field};
ghost use Rattle.command_rules.specs.Describe.{jump_text, segment_line};
ghost use Rattle.command_rows.specs.Rows.{RowsPut};
ghost use Rattle.command_jumps.specs.Reached.{AllReached};
ghost use Rattle.command_segments.specs.SegmentRow.{segment_front, longest_front, longest_rest, longest_segment};

use command_ends::put_titled;
use command_jumps::reached;
use command_rows::Rows;
use command_text::{put_amount, put_rate, put_time_by};
use number_text::{put_bytes, put_number};
use rules::Segment;
use segments::row::row_at;

const TAB: u8 = b'\t';

const LINE_END: u8 = b'\n';

// `segment`, a tab, two numbers, a time, a rate, `back` and an amount, and a byte behind each.
pub const LONGEST_SEGMENT: usize = 159;

// Puts the segments from row `from` on to the front of the buffer, until none is left or the buffer has no room for the longest line.
pub fn put_segments(
    unit: u64,
    counts: &[u64],
    times: &[i64],
    rates: &[u64],
    seconds: bool,
    from: usize,
    out: &mut [u8],
) -> Rows
    requires all_reached { AllReached unit (segments counts.now times.now rates.now) }
    requires from_in_bounds { from ≤ length counts.now }
    requires longest_segment_in_bounds { longest_segment ≤ length out.old }
    ensures { RowsPut (segment_line seconds unit (segments counts.now times.now rates.now)) (length counts.now) from result.next result.put out.old out.new }
{
    // the last place with room for the longest line
    let last = out.len() - LONGEST_SEGMENT;
    let mut put = 0;
    for i in from..counts.len() {
        if last < put {
            return Rows { next: i, put };
        }
        put = put_segment(unit, counts, times, rates, seconds, i, out, put);
    }
    Rows {
        next: counts.len(),
        put,
    }
}

// The line of row `i`.
pub fn put_segment(
    unit: u64,
    counts: &[u64],
    times: &[i64],
    rates: &[u64],
    seconds: bool,
    i: usize,
    out: &mut [u8],
    at: usize,
) -> usize
    requires all_reached { AllReached unit (segments counts.now times.now rates.now) }
    requires i_in_bounds { i < length counts.now }
    requires longest_segment_in_bounds { at + longest_segment ≤ length out.old }
    ensures written { Written (segment_line seconds unit (segments counts.now times.now rates.now) i) result at out.old out.new }
    ensures upper_bound { result ≤ at + longest_segment }
{
    let row = row_at(counts, times, rates, i);
    let rate = row.rate;
    let place = put_front(out, at, i as u64, row, seconds);
    if i + 1 < counts.len() {
        let line = reached(unit, counts, times, rates, i);
        return put_rest(out, place, rate, line, times[i + 1], seconds);
    }
    put_rate(out, place, rate, seconds, LINE_END)
}

// A row's number, count and time, with a tab behind each.
fn put_front(out: &mut [u8], at: usize, number: u64, row: Segment, seconds: bool) -> usize
    requires { at + longest_front ≤ length out.old }
    ensures written { Written (segment_front seconds number row) result at out.old out.new }
    ensures upper_bound { result ≤ at + longest_front }
{
    let numbered = put_titled(out, at, b"segment\t", number, TAB);
    let counted = put_number(out, numbered, row.count, TAB);
    put_time_by(out, counted, row.time, seconds, TAB)
}

// A row's rate, and the gap or the step back from `line`, the time that its line reaches, to `next`, the time at which the next row begins.
fn put_rest(out: &mut [u8], at: usize, rate: u64, line: i64, next: i64, seconds: bool) -> usize
    requires { at + longest_rest ≤ length out.old }
    ensures written { Written (rate_text seconds rate ++ last_field (jump_text seconds line next)) result at out.old out.new }
    ensures upper_bound { result ≤ at + longest_rest }
{
    if line < next {
        let place = put_rate(out, at, rate, seconds, TAB);
        let named = put_bytes(out, place, b"gap\t");
        return put_amount(out, named, signed::elapsed(line, next), seconds, LINE_END);
    }
    if next < line {
        let place = put_rate(out, at, rate, seconds, TAB);
        let named = put_bytes(out, place, b"back\t");
        return put_amount(out, named, signed::elapsed(next, line), seconds, LINE_END);
    }
    put_rate(out, at, rate, seconds, LINE_END)
}

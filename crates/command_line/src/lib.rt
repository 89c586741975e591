// A line of input to its line of output, under tables that are accepted.
#![tactic(auto)]

ghost use Rattle.std.specs.Prelude.{◌≡◌, ◌+◌, ◌≤◌, length, take};
ghost use Rattle.rules.specs.Partitions.{partitions};
ghost use Rattle.rules.specs.Segments.{segments};
ghost use Rattle.rules.specs.StampTime.{time_of_message};
ghost use Rattle.tables.specs.Accept.{StampsFacts, TableFacts};
ghost use Rattle.command_rules.specs.Lines.{message_by, stamp_line, count_line, line_by, line_of};
ghost use Rattle.command_answers.specs.Put.{longest_line, PutLine};
ghost use Rattle.succession_rules.specs.OfTwo.{table_of};
ghost use Rattle.command_line.specs.Ready.{Ready};
ghost use Rattle.rules.specs.Answer.{answer_of};

use accepted_calls::{message_time, stamp_time, time_count};
use command_answers::{Put, put_count, put_print, put_refused, put_timed};
use command_compared::put_compared;
use command_input::{read_hex, text_length};
use command_numbers::{read_count, read_time};
use command_rules::Query;
use rules::{Layout, Refusal, TimedStamp};
use tables::Basis;

// A query of one table asks the older.
pub fn put_line(
    query: Query,
    seconds: bool,
    older: Layout,
    older_basis: Basis,
    older_starts: &[u64],
    older_ends: &[u64],
    older_counts: &[u64],
    older_times: &[i64],
    older_rates: &[u64],
    newer: Layout,
    newer_basis: Basis,
    newer_starts: &[u64],
    newer_ends: &[u64],
    newer_counts: &[u64],
    newer_times: &[i64],
    newer_rates: &[u64],
    line: &[u8],
    out: &mut [u8],
    at: usize,
) -> Put
    requires ready { Ready older (partitions older_starts.now older_ends.now) (segments older_counts.now older_times.now older_rates.now) older_basis newer (partitions newer_starts.now newer_ends.now) (segments newer_counts.now newer_times.now newer_rates.now) newer_basis }
    requires longest_line_in_bounds { at + longest_line ≤ length out.old }
    ensures { PutLine (line_of query seconds (table_of older older_starts.now older_ends.now older_counts.now older_times.now older_rates.now) (table_of newer newer_starts.now newer_ends.now newer_counts.now newer_times.now newer_rates.now) line.now) result at out.old out.new }
{
    let n = text_length(line);
    put_text(
        query,
        seconds,
        older,
        older_basis,
        older_starts,
        older_ends,
        older_counts,
        older_times,
        older_rates,
        newer,
        newer_basis,
        newer_starts,
        newer_ends,
        newer_counts,
        newer_times,
        newer_rates,
        &line[..n],
        out,
        at,
    )
}

// The line without its byte 13.
fn put_text(
    query: Query,
    seconds: bool,
    older: Layout,
    older_basis: Basis,
    older_starts: &[u64],
    older_ends: &[u64],
    older_counts: &[u64],
    older_times: &[i64],
    older_rates: &[u64],
    newer: Layout,
    newer_basis: Basis,
    newer_starts: &[u64],
    newer_ends: &[u64],
    newer_counts: &[u64],
    newer_times: &[i64],
    newer_rates: &[u64],
    text: &[u8],
    out: &mut [u8],
    at: usize,
) -> Put
    requires ready { Ready older (partitions older_starts.now older_ends.now) (segments older_counts.now older_times.now older_rates.now) older_basis newer (partitions newer_starts.now newer_ends.now) (segments newer_counts.now newer_times.now newer_rates.now) newer_basis }
    requires longest_line_in_bounds { at + longest_line ≤ length out.old }
    ensures { PutLine (line_by query seconds (table_of older older_starts.now older_ends.now older_counts.now older_times.now older_rates.now) (table_of newer newer_starts.now newer_ends.now newer_counts.now newer_times.now newer_rates.now) text.now) result at out.old out.new }
{
    match query {
        Query::Time => put_timed(
            seconds,
            older,
            older_basis,
            older_starts,
            older_ends,
            stamp_time(
                older,
                older_basis,
                older_starts,
                older_ends,
                older_counts,
                older_times,
                older_rates,
                text,
            ),
            out,
            at,
        ),
        Query::Messages => put_timed(
            seconds,
            older,
            older_basis,
            older_starts,
            older_ends,
            hex_time(
                older,
                older_basis,
                older_starts,
                older_ends,
                older_counts,
                older_times,
                older_rates,
                text,
            ),
            out,
            at,
        ),
        Query::Stamp => put_stamp_line(older, older_basis, older_starts, older_ends, text, out, at),
        Query::Count => put_count_line(
            seconds,
            older,
            older_basis,
            older_starts,
            older_ends,
            older_counts,
            older_times,
            older_rates,
            text,
            out,
            at,
        ),
        Query::Compare => put_compared(
            seconds,
            stamp_time(
                older,
                older_basis,
                older_starts,
                older_ends,
                older_counts,
                older_times,
                older_rates,
                text,
            ),
            stamp_time(
                newer,
                newer_basis,
                newer_starts,
                newer_ends,
                newer_counts,
                newer_times,
                newer_rates,
                text,
            ),
            out,
            at,
        ),
        Query::CompareMessages => put_compared(
            seconds,
            hex_time(
                older,
                older_basis,
                older_starts,
                older_ends,
                older_counts,
                older_times,
                older_rates,
                text,
            ),
            hex_time(
                newer,
                newer_basis,
                newer_starts,
                newer_ends,
                newer_counts,
                newer_times,
                newer_rates,
                text,
            ),
            out,
            at,
        ),
    }
}

// A message in hex to its encoded count and its time.
fn hex_time(
    layout: Layout,
    basis: Basis,
    starts: &[u64],
    ends: &[u64],
    counts: &[u64],
    times: &[i64],
    rates: &[u64],
    text: &[u8],
) -> Result<TimedStamp, Refusal>
    requires { TableFacts layout (partitions starts.now ends.now) (segments counts.now times.now rates.now) basis }
    ensures { answer_of result ≡ message_by (table_of layout starts.now ends.now counts.now times.now rates.now) text.now }
{
    let mut message = [0u8; 2000];
    let n = read_hex(text, &mut message)?;
    front_time(
        layout, basis, starts, ends, counts, times, rates, &message, n,
    )
}

// The message is the first `n` bytes of the buffer.
fn front_time(
    layout: Layout,
    basis: Basis,
    starts: &[u64],
    ends: &[u64],
    counts: &[u64],
    times: &[i64],
    rates: &[u64],
    buffer: &[u8],
    n: usize,
) -> Result<TimedStamp, Refusal>
    requires table_facts { TableFacts layout (partitions starts.now ends.now) (segments counts.now times.now rates.now) basis }
    requires n_in_bounds { n ≤ length buffer.now }
    ensures { answer_of result ≡ time_of_message layout (partitions starts.now ends.now) (segments counts.now times.now rates.now) (take n buffer.now) }
{
    message_time(
        layout,
        basis,
        starts,
        ends,
        counts,
        times,
        rates,
        &buffer[..n],
    )
}

// An encoded count to its stamp.
fn put_stamp_line(
    layout: Layout,
    basis: Basis,
    starts: &[u64],
    ends: &[u64],
    text: &[u8],
    out: &mut [u8],
    at: usize,
) -> Put
    requires stamps_facts { StampsFacts layout (partitions starts.now ends.now) basis }
    requires longest_line_in_bounds { at + longest_line ≤ length out.old }
    ensures { PutLine (stamp_line layout (partitions starts.now ends.now) text.now) result at out.old out.new }
{
    match read_count(text) {
        Ok(e) => put_print(layout, basis, starts, ends, e, out, at),
        Err(k) => put_refused(out, at, k),
    }
}

// A time to its encoded count.
fn put_count_line(
    seconds: bool,
    layout: Layout,
    basis: Basis,
    starts: &[u64],
    ends: &[u64],
    counts: &[u64],
    times: &[i64],
    rates: &[u64],
    text: &[u8],
    out: &mut [u8],
    at: usize,
) -> Put
    requires table_facts { TableFacts layout (partitions starts.now ends.now) (segments counts.now times.now rates.now) basis }
    requires longest_line_in_bounds { at + longest_line ≤ length out.old }
    ensures { PutLine (count_line seconds (table_of layout starts.now ends.now counts.now times.now rates.now) text.now) result at out.old out.new }
{
    match read_time(text, seconds) {
        Ok(t) => put_count(
            time_count(layout, basis, starts, ends, counts, times, rates, t),
            out,
            at,
        ),
        Err(k) => put_refused(out, at, k),
    }
}

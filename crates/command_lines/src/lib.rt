// The lines of a chunk of input to their lines of output, under tables that are accepted.
#![tactic(auto)]

ghost use Rattle.std.specs.Prelude.{◌≡◌, ◌&&◌, ◌+◌, ◌≤◌, min, length, take};
ghost use Rattle.rules.specs.Partitions.{partitions};
ghost use Rattle.rules.specs.Segments.{segments};
ghost use Rattle.command_rules.specs.Lines.{line_text, line_well, line_buffer};
ghost use Rattle.command_answers.specs.Put.{longest_line};
ghost use Rattle.succession_rules.specs.OfTwo.{table_of};
ghost use Rattle.command_line.specs.Ready.{Ready};
ghost use Rattle.command_lines.specs.Pieces.{EndedLine, AnsweredWell, LastLine};

use command_answers::Put;
use command_line::put_line;
use command_rules::Query;
use line_output::kept_after;
use lines::LineStep;
use rules::Layout;
use tables::Basis;

// A line's longest answer.
const LONGEST_LINE: usize = 256;

// Where the chunk goes on, how many bytes of the line under way are kept, how many bytes of answers are put,
// and whether all these lines are answered well.
#[derive(Clone, Copy)]
pub struct Progress {
    pub at: usize,
    pub kept: usize,
    pub put: usize,
    pub well: bool,
}

// Puts the answers of the lines that end in the chunk from `at` on to the front of the buffer, until the chunk is used up or the
// buffer has no room for the longest answer.
pub fn answer_chunk(
    query: Query,
    seconds: bool,
    older: Layout,
    older_basis: Basis,
    older_starts: &[u64],
    older_ends: &[u64],
    older_counts: &[u64],
    older_times: &[i64],
    older_rates: &[u64],
    newer: Layout,
    newer_basis: Basis,
    newer_starts: &[u64],
    newer_ends: &[u64],
    newer_counts: &[u64],
    newer_times: &[i64],
    newer_rates: &[u64],
    chunk: &[u8],
    at: usize,
    line: &mut [u8],
    kept: usize,
    out: &mut [u8],
) -> Progress
    requires ready { Ready older (partitions older_starts.now older_ends.now) (segments older_counts.now older_times.now older_rates.now) older_basis newer (partitions newer_starts.now newer_ends.now) (segments newer_counts.now newer_times.now newer_rates.now) newer_basis }
    requires at_in_bounds { at ≤ length chunk.now }
    requires line_len { length line.old ≡ line_buffer }
    requires kept_le_line_buffer { kept ≤ line_buffer }
    requires longest_line_in_bounds { longest_line ≤ length out.old }
    ensures answered_well { AnsweredWell (line_text query seconds (table_of older older_starts.now older_ends.now older_counts.now older_times.now older_rates.now) (table_of newer newer_starts.now newer_ends.now newer_counts.now newer_times.now newer_rates.now)) (line_well query seconds (table_of older older_starts.now older_ends.now older_counts.now older_times.now older_rates.now) (table_of newer newer_starts.now newer_ends.now newer_counts.now newer_times.now newer_rates.now)) chunk.now at result.at (take kept line.old) result.kept line.new result.put out.old out.new result.well }
    ensures chunk_bound { min (at + 1) (length chunk.now) ≤ result.at }
{
    // the last place with room for the longest answer
    let last = out.len() - LONGEST_LINE;
    let mut i = at;
    let mut held = kept;
    let mut put = 0;
    let mut well = true;
    while i < chunk.len() {
        if last < put {
            return Progress {
                at: i,
                kept: held,
                put,
                well,
            };
        }
        let step = lines::next(chunk, i, line, held);
        i = step.at;
        let next = put_ended(
            query,
            seconds,
            older,
            older_basis,
            older_starts,
            older_ends,
            older_counts,
            older_times,
            older_rates,
            newer,
            newer_basis,
            newer_starts,
            newer_ends,
            newer_counts,
            newer_times,
            newer_rates,
            step,
            line,
            out,
            put,
            well,
        );
        put = next.at;
        well = next.well;
        held = kept_after(step);
    }
    Progress {
        at: i,
        kept: held,
        put,
        well,
    }
}

// Puts the answer of the line, where it has ended; `well` tells of the lines before it.
fn put_ended(
    query: Query,
    seconds: bool,
    older: Layout,
    older_basis: Basis,
    older_starts: &[u64],
    older_ends: &[u64],
    older_counts: &[u64],
    older_times: &[i64],
    older_rates: &[u64],
    newer: Layout,
    newer_basis: Basis,
    newer_starts: &[u64],
    newer_ends: &[u64],
    newer_counts: &[u64],
    newer_times: &[i64],
    newer_rates: &[u64],
    step: LineStep,
    line: &[u8],
    out: &mut [u8],
    at: usize,
    well: bool,
) -> Put
    requires ready { Ready older (partitions older_starts.now older_ends.now) (segments older_counts.now older_times.now older_rates.now) older_basis newer (partitions newer_starts.now newer_ends.now) (segments newer_counts.now newer_times.now newer_rates.now) newer_basis }
    requires kept_in_bounds { step.kept ≤ length line.now }
    requires longest_line_in_bounds { at + longest_line ≤ length out.old }
    ensures { EndedLine (line_text query seconds (table_of older older_starts.now older_ends.now older_counts.now older_times.now older_rates.now) (table_of newer newer_starts.now newer_ends.now newer_counts.now newer_times.now newer_rates.now)) (line_well query seconds (table_of older older_starts.now older_ends.now older_counts.now older_times.now older_rates.now) (table_of newer newer_starts.now newer_ends.now newer_counts.now newer_times.now newer_rates.now)) step.ended (take step.kept line.now) result at out.old out.new well }
{
    let n = step.kept;
    if step.ended {
        let put = put_line(
            query,
            seconds,
            older,
            older_basis,
            older_starts,
            older_ends,
            older_counts,
            older_times,
            older_rates,
            newer,
            newer_basis,
            newer_starts,
            newer_ends,
            newer_counts,
            newer_times,
            newer_rates,
            &line[..n],
            out,
            at,
        );
        return and_well(well, put);
    }
    Put { at, well }
}

// The same place; well where both are.
fn and_well(well: bool, put: Put) -> Put
    ensures { result ≡ record { at = put.at; well = well && put.well } }
{
    let at = put.at;
    if well {
        return put;
    }
    Put { at, well: false }
}

// Puts the answer of a last line without byte 10 to the front of the buffer; of no line where no byte is kept.
pub fn answer_last(
    query: Query,
    seconds: bool,
    older: Layout,
    older_basis: Basis,
    older_starts: &[u64],
    older_ends: &[u64],
    older_counts: &[u64],
    older_times: &[i64],
    older_rates: &[u64],
    newer: Layout,
    newer_basis: Basis,
    newer_starts: &[u64],
    newer_ends: &[u64],
    newer_counts: &[u64],
    newer_times: &[i64],
    newer_rates: &[u64],
    line: &[u8],
    kept: usize,
    out: &mut [u8],
) -> Put
    requires ready { Ready older (partitions older_starts.now older_ends.now) (segments older_counts.now older_times.now older_rates.now) older_basis newer (partitions newer_starts.now newer_ends.now) (segments newer_counts.now newer_times.now newer_rates.now) newer_basis }
    requires kept_in_bounds { kept ≤ length line.now }
    requires longest_line_in_bounds { longest_line ≤ length out.old }
    ensures { LastLine (line_text query seconds (table_of older older_starts.now older_ends.now older_counts.now older_times.now older_rates.now) (table_of newer newer_starts.now newer_ends.now newer_counts.now newer_times.now newer_rates.now)) (line_well query seconds (table_of older older_starts.now older_ends.now older_counts.now older_times.now older_rates.now) (table_of newer newer_starts.now newer_ends.now newer_counts.now newer_times.now newer_rates.now)) (take kept line.now) result out.old out.new }
{
    if 0 < kept {
        return put_line(
            query,
            seconds,
            older,
            older_basis,
            older_starts,
            older_ends,
            older_counts,
            older_times,
            older_rates,
            newer,
            newer_basis,
            newer_starts,
            newer_ends,
            newer_counts,
            newer_times,
            newer_rates,
            &line[..kept],
            out,
            0,
        );
    }
    Put { at: 0, well: true }
}

// The stamp program: stamps from standard input under table A, for each line its encoded count and its time, or `refused`,
// the number and its place. `run`, `write_answers` and `write_last` read and write; all else works on slices. The contracts say every byte.
#![tactic(auto)]

ghost use Rattle.std.specs.Prelude.{◌≡◌, ◌+◌, ◌-◌, ◌^◌, ◌<◌, ◌≤◌, min, length, take, replicate, IfOk, OnOk, IfSome};
ghost use Rattle.rules.specs.Examples.{layout_a};
ghost use Rattle.lines.specs.Steps.{line_left};
ghost use Rattle.decimal.specs.Writing.{Written};
ghost use Rattle.line_output.specs.Pieces.{last_answer, ended_answer, Answered};
ghost use Rattle.std.specs.Io.KnownBytes.{Appends};
ghost use Rattle.line_output.specs.Pieces.{piece_answers};
ghost use Rattle.stamp_lines.specs.Output.{line_stamp, answer_line, stamp_output, longest_answer};
ghost use Rattle.stamp_lines.specs.Pieces.{line_buffer, ToTheEnd};
ghost use Rattle.rules.specs.Answer.{answer_of};

use crate::put::{LONGEST_ANSWER, put_stamp};
use line_output::kept_after;
use lines::LineStep;
use rules::{Layout, Refusal, TimedStamp};
use stamp_time::time_of_stamp;
use std::io;
use std::io::{Read, Write};

mod put;

// Where the chunk goes on, how many bytes of the line under way are kept, and how many bytes of answers are put.
#[derive(Clone, Copy)]
pub struct Progress {
    pub at: usize,
    pub kept: usize,
    pub put: usize,
}

// How many reads brought bytes, and how many bytes the last one brought.
#[derive(Clone, Copy)]
pub struct Reads {
    pub made: u64,
    pub last: usize,
}

// Reads the input to its end and writes the answers of its lines. Every line that has ended is answered before more input
// is asked for. Where no read and no write fails, and the reads can be counted, the answers of the whole input are written.
// A read or a write that fails ends it with its error; what was written by then is not said.
pub fn run<R: Read, W: Write>(input: &mut R, output: &mut W, line: &mut [u8]) -> io::Result<Reads>
    requires { line.old ≡ replicate line_buffer 0 }
    ensures ended { IfOk result (λ reads. ToTheEnd reads) }
    ensures whole_output { IfOk result (λ reads. reads.made < 2 ^ 64 - 1 → IfSome (R.remaining input.old) (λ bytes. Appends (W.contents output.old) (W.contents output.new) (stamp_output bytes))) }
    ensures line_len { length line.new ≡ length line.old }
{
    let mut chunk = [0u8; 65_536];
    let mut out = [0u8; 4_096];
    let mut kept = 0;
    let mut last = 0;
    // The loop ends with the input; the number of reads shows that it ends at all.
    for made in 0..u64::MAX {
        let n = input.read(&mut chunk)?;
        if n == 0 {
            write_last(output, line, kept, &mut out)?;
            return Ok(Reads { made, last: n });
        }
        kept = write_answers(output, &chunk[..n], line, kept, &mut out)?;
        last = n;
    }
    write_last(output, line, kept, &mut out)?;
    Ok(Reads {
        made: u64::MAX,
        last,
    })
}

// Writes the answers of the lines that end in the chunk. How many bytes of the line under way are kept.
fn write_answers<W: Write>(
    output: &mut W,
    chunk: &[u8],
    line: &mut [u8],
    kept: usize,
    out: &mut [u8],
) -> io::Result<usize>
    requires line_len { length line.old ≡ line_buffer }
    requires kept_le_line_buffer { kept ≤ line_buffer }
    requires longest_answer_in_bounds { longest_answer ≤ length out.old }
    ensures out_len { length out.new ≡ length out.old }
    ensures line_len_after { length line.new ≡ line_buffer }
    ensures upper_bound { IfOk result (λ held. held ≤ line_buffer) }
    ensures line_after { IfOk result (λ held. take held line.new ≡ line_left line_buffer (take kept line.old) chunk.now) }
    ensures written { OnOk result (Appends (W.contents output.old) (W.contents output.new) (piece_answers answer_line line_buffer (take kept line.old) chunk.now)) }
{
    let mut at = 0;
    let mut held = kept;
    while at < chunk.len() {
        let place = answer_chunk(chunk, at, line, held, out);
        output.write_all(&out[..place.put])?;
        at = place.at;
        held = place.kept;
    }
    Ok(held)
}

// Writes the answer of a last line without byte 10.
fn write_last<W: Write>(output: &mut W, line: &[u8], kept: usize, out: &mut [u8]) -> io::Result<()>
    requires kept_in_bounds { kept ≤ length line.now }
    requires longest_answer_in_bounds { longest_answer ≤ length out.old }
    ensures written { OnOk result (Appends (W.contents output.old) (W.contents output.new) (last_answer answer_line (take kept line.now))) }
{
    let put = answer_last(line, kept, out);
    output.write_all(&out[..put])
}

// Puts the answers of the lines that end in the chunk from `at` on to the front of the buffer, until the chunk is used up or the
// buffer has no room for the longest answer.
pub fn answer_chunk(
    chunk: &[u8],
    at: usize,
    line: &mut [u8],
    kept: usize,
    out: &mut [u8],
) -> Progress
    requires at_in_bounds { at ≤ length chunk.now }
    requires line_len { length line.old ≡ line_buffer }
    requires kept_le_line_buffer { kept ≤ line_buffer }
    requires longest_answer_in_bounds { longest_answer ≤ length out.old }
    ensures answered { Answered answer_line line_buffer chunk.now at result.at (take kept line.old) result.kept line.new result.put out.old out.new }
    ensures chunk_bound { min (at + 1) (length chunk.now) ≤ result.at }
{
    // the last place with room for the longest answer
    let last = out.len() - LONGEST_ANSWER;
    let mut i = at;
    let mut held = kept;
    let mut put = 0;
    while i < chunk.len() {
        if last < put {
            return Progress {
                at: i,
                kept: held,
                put,
            };
        }
        let step = lines::next(chunk, i, line, held);
        i = step.at;
        put = put_ended(out, put, step, line);
        held = kept_after(step);
    }
    Progress {
        at: i,
        kept: held,
        put,
    }
}

// Puts the answer of the line, where it has ended.
fn put_ended(out: &mut [u8], at: usize, step: LineStep, line: &[u8]) -> usize
    requires kept_in_bounds { step.kept ≤ length line.now }
    requires longest_answer_in_bounds { at + longest_answer ≤ length out.old }
    ensures written { Written (ended_answer answer_line step.ended (take step.kept line.now)) result at out.old out.new }
    ensures upper_bound { result ≤ at + longest_answer }
{
    let n = step.kept;
    if step.ended {
        return put_stamp(out, at, answer(&line[..n]));
    }
    at
}

// Puts the answer of a last line without byte 10 to the front of the buffer; of no line where no byte is kept.
pub fn answer_last(line: &[u8], kept: usize, out: &mut [u8]) -> usize
    requires kept_in_bounds { kept ≤ length line.now }
    requires longest_answer_in_bounds { longest_answer ≤ length out.old }
    ensures written { Written (last_answer answer_line (take kept line.now)) result 0 out.old out.new }
    ensures upper_bound { result ≤ length out.old }
{
    if 0 < kept {
        return put_stamp(out, 0, answer(&line[..kept]));
    }
    0
}

// A line under table A. One of 97 bytes stands for every line over 96 bytes: the stamp reader refuses it 4.
#[tactic(auto, unfolding(crate::specs::Output::line_stamp, rules::specs::Examples::partitions_a, rules::specs::Examples::segments_a))]
fn answer(line: &[u8]) -> Result<TimedStamp, Refusal>
    ensures { answer_of result ≡ line_stamp line.now }
{
    let starts = [0u64, 200];
    let ends = [500u64, 900];
    let counts = [0u64, 600];
    let times = [-1000i64, 1000];
    let rates = [25_000u64, 30_000];
    time_of_stamp(table_a(), &starts, &ends, &counts, &times, &rates, line)
}

#[tactic(auto, unfolding(rules::specs::Examples::layout_a))]
fn table_a() -> Layout
    ensures { result ≡ layout_a }
{
    Layout {
        n: 2,
        moduli: [100, 10, 0, 0, 0, 0, 0, 0, 0, 0],
        offsets: [0; Layout::MOST_FIELDS],
        delimiter: 1,
    }
}

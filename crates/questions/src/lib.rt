// The questions of a script over its tables, each over one public call. Each function puts its answer at `place`, and answers the place after it.
#![tactic(auto)]

ghost use Rattle.std.specs.Prelude.{◌≤◌, length};
ghost use Rattle.put.specs.Places.{Put};

use rules::{DoubleSegment, Layout, Reading, Refusal};
use script_names::{Numbers, Question};
use script_words::hex::read_bytes;
use script_words::numbers::{byte_of, double_of, lent_length};

// The most bytes of a text or a message to read.
const MOST_BYTES: usize = 2000;

// The most bytes of a buffer to print into.
const MOST_LENT: usize = 256;

// The line was read: its numbers, which end at `rest`.
pub fn answer(
    question: Question,
    numbers: &Numbers,
    line: &[u8],
    rest: usize,
    layout: Layout,
    starts: &[u64],
    ends: &[u64],
    counts: &[u64],
    times: &[i64],
    rates: &[u64],
    out: &mut [u8],
    place: usize,
) -> usize
    requires { rest ≤ length line.now }
    ensures { Put place out.old result }
{
    match question {
        Question::ReadText => read(line, rest, out, place, |bytes| {
            text::read_text(layout, bytes)
        }),
        Question::ReadStamp => read(line, rest, out, place, |bytes| {
            text::read_stamp(layout, starts, ends, bytes)
        }),
        Question::ReadMessage => read(line, rest, out, place, |bytes| {
            message::read_message(layout, starts, ends, bytes)
        }),
        Question::PrintCount => print(numbers, out, place, |lent| {
            print::print_count(layout, numbers[0], lent)
        }),
        Question::PrintStamp => print(numbers, out, place, |lent| {
            print::print_stamp(layout, starts, ends, numbers[0], lent)
        }),
        Question::TimeOf => {
            let answer = time::time_of(layout, starts, ends, counts, times, rates, numbers[0]);
            answers::put_answer(out, place, answer.map(|found| found.time))
        }
        Question::CountAt => {
            let at = signed::from_ordinal(numbers[0]);
            let answer = time::count_at(layout, starts, ends, counts, times, rates, at);
            answers::put_answer(out, place, answer.map(|found| found.count))
        }
        Question::StepsBack => {
            let answer = tables::steps_back(layout, starts, ends, counts, times, rates);
            answers::put_answer(out, place, answer)
        }
        Question::Forward => {
            let answer = doubles::forward(segment_of(numbers), numbers[3], numbers[4]);
            answers::put_answer(out, place, answer)
        }
        Question::Back => {
            let given = double_of(numbers[4]);
            let answer = doubles::back(segment_of(numbers), numbers[3], given);
            answers::put_answer(out, place, answer)
        }
    }
}

// Reads the line's bytes by the call.
fn read<F: FnOnce(&[u8]) -> Result<Reading, Refusal>>(
    line: &[u8],
    rest: usize,
    out: &mut [u8],
    place: usize,
    call: F,
) -> usize
    requires rest_in_bounds { rest ≤ length line.now }
    requires callable { F.IsAlwaysCallable call }
    ensures { Put place out.old result }
{
    let mut bytes = [0u8; MOST_BYTES];
    match read_bytes(line, rest, &mut bytes) {
        Some(n) => {
            let answer = call(&bytes[..n]);
            answers::put_answer(out, place, answer.map(|reading| reading.count))
        }
        None => answers::put_bad(out, place),
    }
}

// Prints by the call into a buffer that is filled with one byte.
fn print<F: FnOnce(&mut [u8]) -> Result<usize, Refusal>>(
    numbers: &Numbers,
    out: &mut [u8],
    place: usize,
    call: F,
) -> usize
    requires { F.IsAlwaysCallable call }
    ensures { Put place out.old result }
{
    let size = lent_length(numbers[2], MOST_LENT as u64);
    let mut buffer = [byte_of(numbers[1]); MOST_LENT];
    let lent = &mut buffer[..size];
    let answer = call(lent);
    answers::put_print(out, place, answer, lent)
}

fn segment_of(numbers: &Numbers) -> DoubleSegment {
    DoubleSegment {
        count: double_of(numbers[0]),
        time: double_of(numbers[1]),
        rate: double_of(numbers[2]),
    }
}

// The lines of a script over its raw counter, and its question of seconds. Each function that puts an answer puts it at `place`, and
// answers the place after it.
#![tactic(auto)]

ghost use Rattle.put.specs.Places.{Put};

use raw_rules::{RawCounter, RawStep};
use rules::Layout;
use script_names::{Numbers, RawLine};
use script_words::numbers::word_of;

// No reset was accepted.
pub const NEW: RawCounter = RawCounter {
    started: false,
    raw: 0,
    count: 0,
};

// Does what the line says to the counter, and puts its answer where it has one.
pub fn answer(
    line: RawLine,
    numbers: &Numbers,
    layout: Layout,
    starts: &[u64],
    ends: &[u64],
    counter: &mut RawCounter,
    out: &mut [u8],
    place: usize,
) -> usize
    ensures { Put place out.old result }
{
    match line {
        RawLine::New => {
            *counter = NEW;
            place
        }
        RawLine::State => {
            *counter = RawCounter {
                started: true,
                raw: word_of(numbers[0]),
                count: numbers[1],
            };
            place
        }
        RawLine::Reset => {
            let raw = word_of(numbers[1]);
            let step = raw_counter::reset_raw(layout, starts, ends, *counter, numbers[0], raw);
            *counter = step.next;
            put_step(out, place, step)
        }
        RawLine::Read => {
            let raw = word_of(numbers[0]);
            let step = raw_counter::read_raw(layout, starts, ends, *counter, raw);
            *counter = step.next;
            put_step(out, place, step)
        }
        RawLine::Microseconds => {
            let answer = raw_seconds::read_seconds(word_of(numbers[0]), word_of(numbers[1]));
            let place = put::answer(out, place, answer);
            put::byte(out, place, b'\n')
        }
    }
}

// Whatever the answer, the counter afterwards stands behind it.
fn put_step(out: &mut [u8], at: usize, step: RawStep) -> usize
    ensures { Put at out.old result }
{
    let place = match step.answer {
        Ok(_) => put::text(out, at, b"ok"),
        Err(refusal) => put::refusal(out, at, refusal),
    };
    put_counter(out, place, step.next)
}

// ` RAW COUNT`, or ` none` before any accepted reset.
fn put_counter(out: &mut [u8], at: usize, counter: RawCounter) -> usize
    ensures { Put at out.old result }
{
    if !counter.started {
        return put::text(out, at, b" none\n");
    }
    let place = put::byte(out, at, b' ');
    let place = put::number(out, place, u64::from(counter.raw));
    let place = put::byte(out, place, b' ');
    let place = put::number(out, place, counter.count);
    put::byte(out, place, b'\n')
}

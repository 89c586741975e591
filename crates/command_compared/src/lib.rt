// The lines of a comparison, put into a buffer at `at`: what the older table answers of a stamp, and the newer.
#![tactic(auto)]

ghost use Rattle.std.specs.Prelude.{◌≡◌, true, false, ◌&&◌, ◌+◌, ◌≤◌, eqb, length};
ghost use Rattle.rules.specs.Answer.{answer, refused, as_numbered, number_of, answer_of};
ghost use Rattle.versions.specs.Equal.{eq_z};
ghost use Rattle.command_rules.specs.Lines.{both_line, refused_line, compare_line};
ghost use Rattle.command_answers.specs.Put.{longest_line, PutLine};

use command_answers::Put;
use command_text::{put_both, put_difference};
use number_text::put_bytes;
use refusal_text::put_refusal;
use rules::{Refusal, TimedStamp};

const TAB: u8 = b'\t';

const LINE_END: u8 = b'\n';

#[tactic(auto, unfolding(command_rules::specs::Lines::compare_line))]
pub fn put_compared(
    seconds: bool,
    older: Result<TimedStamp, Refusal>,
    newer: Result<TimedStamp, Refusal>,
    out: &mut [u8],
    at: usize,
) -> Put
    requires { at + longest_line ≤ length out.old }
    ensures { PutLine (compare_line seconds (answer_of older) (answer_of newer)) result at out.old out.new }
{
    match (older, newer) {
        (Ok(a), Ok(b)) => put_answers(seconds, a, b, out, at),
        (Ok(a), Err(k)) => put_newer_refused(seconds, k, a, out, at),
        (Err(j), Ok(b)) => put_older_refused(seconds, j, b, out, at),
        (Err(j), Err(k)) => put_refusals(j, k, out, at),
    }
}

fn put_answers(seconds: bool, a: TimedStamp, b: TimedStamp, out: &mut [u8], at: usize) -> Put
    requires { at + longest_line ≤ length out.old }
    ensures { PutLine (compare_line seconds (answer a) (answer b)) result at out.old out.new }
{
    if is_same(a, b) {
        return put_same(seconds, a, out, at);
    }
    put_differ(seconds, a, b, out, at)
}

fn is_same(a: TimedStamp, b: TimedStamp) -> bool
    ensures { result ≡ (eqb a.count b.count && eq_z a.time b.time) }
{
    if a.time != b.time {
        return false;
    }
    a.count == b.count
}

fn put_same(seconds: bool, a: TimedStamp, out: &mut [u8], at: usize) -> Put
    requires { at + longest_line ≤ length out.old }
    ensures { PutLine (both_line seconds a a true) result at out.old out.new }
{
    let place = put_bytes(out, at, b"same\t");
    let next = put_both(out, place, a, seconds, LINE_END);
    Put {
        at: next,
        well: true,
    }
}

fn put_differ(seconds: bool, a: TimedStamp, b: TimedStamp, out: &mut [u8], at: usize) -> Put
    requires { at + longest_line ≤ length out.old }
    ensures { PutLine (both_line seconds a b false) result at out.old out.new }
{
    let place = put_bytes(out, at, b"differ\t");
    let second = put_both(out, place, a, seconds, TAB);
    let third = put_both(out, second, b, seconds, TAB);
    let next = put_difference(out, third, a.time, b.time, seconds, LINE_END);
    Put {
        at: next,
        well: false,
    }
}

fn put_older_refused(seconds: bool, j: Refusal, b: TimedStamp, out: &mut [u8], at: usize) -> Put
    requires { at + longest_line ≤ length out.old }
    ensures { PutLine (compare_line seconds (refused (as_numbered j)) (answer b)) result at out.old out.new }
{
    let place = put_bytes(out, at, b"older refuses\t");
    let second = put_refusal(out, place, j, TAB);
    let next = put_both(out, second, b, seconds, LINE_END);
    Put {
        at: next,
        well: false,
    }
}

fn put_newer_refused(seconds: bool, k: Refusal, a: TimedStamp, out: &mut [u8], at: usize) -> Put
    requires { at + longest_line ≤ length out.old }
    ensures { PutLine (compare_line seconds (answer a) (refused (as_numbered k))) result at out.old out.new }
{
    let place = put_bytes(out, at, b"newer refuses\t");
    let second = put_refusal(out, place, k, TAB);
    let next = put_both(out, second, a, seconds, LINE_END);
    Put {
        at: next,
        well: false,
    }
}

fn put_refusals(j: Refusal, k: Refusal, out: &mut [u8], at: usize) -> Put
    requires { at + longest_line ≤ length out.old }
    ensures { PutLine (refused_line (as_numbered j) (as_numbered k) (eqb (number_of j) (number_of k))) result at out.old out.new }
{
    if j.number() == k.number() {
        return put_one_number(j, out, at);
    }
    put_two_numbers(j, k, out, at)
}

fn put_one_number(j: Refusal, out: &mut [u8], at: usize) -> Put
    requires { at + longest_line ≤ length out.old }
    ensures { PutLine (refused_line (as_numbered j) (as_numbered j) true) result at out.old out.new }
{
    let place = put_bytes(out, at, b"same\trefused\t");
    let next = put_refusal(out, place, j, LINE_END);
    Put {
        at: next,
        well: false,
    }
}

fn put_two_numbers(j: Refusal, k: Refusal, out: &mut [u8], at: usize) -> Put
    requires { at + longest_line ≤ length out.old }
    ensures { PutLine (refused_line (as_numbered j) (as_numbered k) false) result at out.old out.new }
{
    let place = put_bytes(out, at, b"refused\t");
    let second = put_refusal(out, place, j, TAB);
    let next = put_refusal(out, second, k, LINE_END);
    Put {
        at: next,
        well: false,
    }
}

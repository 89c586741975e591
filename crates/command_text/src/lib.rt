// Times, rates and answers as fields of a line, put into a buffer at `at`, each with one byte after it. Each function answers the place after that byte.
#![tactic(auto)]

ghost use Rattle.std.specs.Prelude.{◌≡◌, [], ◌∷◌, ◌++◌, ◌+◌, ◌≤◌, ◌^◌, length};
ghost use Rattle.decimal.specs.Writing.{Written};
ghost use Rattle.command_rules.specs.Fields.{pointed, amount_text, time_text, difference_text, rate_text};
ghost use Rattle.command_rules.specs.Lines.{both_fields};
ghost use Rattle.command_text.specs.Longest.{longest_pointed, longest_field, longest_both};

use decimal::write_digits;
use number_text::{put_byte, put_number};
use rules::TimedStamp;

const TAB: u8 = b'\t';

const POINT: u8 = b'.';

const MINUS: u8 = b'-';

// An encoded count, a tab and its time.
pub fn put_both(out: &mut [u8], at: usize, stamp: TimedStamp, seconds: bool, after: u8) -> usize
    requires { at + longest_both ≤ length out.old }
    ensures written { Written (both_fields seconds stamp ++ (after ∷ [])) result at out.old out.new }
    ensures upper_bound { result ≤ at + longest_both }
{
    let place = put_number(out, at, stamp.count, TAB);
    put_time_by(out, place, stamp.time, seconds, after)
}

// A time in nanoseconds, or in decimal seconds.
pub fn put_time_by(out: &mut [u8], at: usize, time: i64, seconds: bool, after: u8) -> usize
    requires { at + longest_field ≤ length out.old }
    ensures written { Written (time_text seconds time ++ (after ∷ [])) result at out.old out.new }
    ensures upper_bound { result ≤ at + longest_field }
{
    let magnitude = time.unsigned_abs();
    if time < 0 {
        let place = put_byte(out, at, MINUS);
        return put_amount(out, place, magnitude, seconds, after);
    }
    put_amount(out, at, magnitude, seconds, after)
}

// By how much `to` is later than `from`, with `-` in front where it is earlier.
pub fn put_difference(
    out: &mut [u8],
    at: usize,
    from: i64,
    to: i64,
    seconds: bool,
    after: u8,
) -> usize
    requires { at + longest_field ≤ length out.old }
    ensures written { Written (difference_text seconds from to ++ (after ∷ [])) result at out.old out.new }
    ensures upper_bound { result ≤ at + longest_field }
{
    if from <= to {
        return put_amount(out, at, signed::elapsed(from, to), seconds, after);
    }
    let place = put_byte(out, at, MINUS);
    put_amount(out, place, signed::elapsed(to, from), seconds, after)
}

// An amount of nanoseconds, or in decimal seconds.
#[tactic(auto, unfolding(command_rules::specs::Fields::amount_text))]
pub fn put_amount(out: &mut [u8], at: usize, amount: u64, seconds: bool, after: u8) -> usize
    requires { at + longest_pointed ≤ length out.old }
    ensures written { Written (amount_text seconds amount ++ (after ∷ [])) result at out.old out.new }
    ensures upper_bound { result ≤ at + longest_pointed }
{
    if seconds {
        put_pointed(out, at, amount, 9, after)
    } else {
        put_number(out, at, amount, after)
    }
}

// A rate in picoseconds, or in decimal seconds.
#[tactic(auto, unfolding(command_rules::specs::Fields::rate_text))]
pub fn put_rate(out: &mut [u8], at: usize, rate: u64, seconds: bool, after: u8) -> usize
    requires { at + longest_field ≤ length out.old }
    ensures written { Written (rate_text seconds rate ++ (after ∷ [])) result at out.old out.new }
    ensures upper_bound { result ≤ at + longest_field }
{
    if seconds {
        put_pointed(out, at, rate, 12, after)
    } else {
        put_number(out, at, rate, after)
    }
}

// A number of units, `10^places` of them to a whole: the whole, a point and as many places.
#[tactic(auto, using(crate::proofs::Texts::ten_pos))]
fn put_pointed(out: &mut [u8], at: usize, x: u64, places: u32, after: u8) -> usize
    requires places_bound { places ≤ 12 }
    requires longest_pointed_in_bounds { at + longest_pointed ≤ length out.old }
    ensures written { Written (pointed places x ++ (after ∷ [])) result at out.old out.new }
    ensures upper_bound { result ≤ at + longest_pointed }
{
    let whole = 10u64.pow(places);
    let start = put_number(out, at, x / whole, POINT);
    let end = start + places as usize;
    write_digits(x, places as usize, end, out);
    put_byte(out, end, after)
}

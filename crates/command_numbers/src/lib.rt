// A text of the operator's input as a number: an encoded count, or a time in nanoseconds or in decimal seconds.
// Numbers are kept up to a cap that is above every total and every time.
#![tactic(auto)]

ghost use Rattle.std.specs.Prelude.{◌≡◌, ◌+◌, ◌-◌, ◌*◌, ◌≤◌, min, eqb, length, get_or, drop};
ghost use Rattle.base.specs.Scans.{all};
ghost use Rattle.rules.specs.Limits.{longest_text};
ghost use Rattle.rules.specs.Text.{is_digit};
ghost use Rattle.command_rules.specs.Input.{spelled, spelled_from, read_count, is_minus, sign_length, with_sign, read_time, read_seconds, read_time_by};
ghost use Rattle.command_input.specs.Runs.{run_length};
ghost use Rattle.command_numbers.specs.Given.{number_cap, capped_count, capped_time};
ghost use Rattle.command_numbers.specs.Places.{point_end, nine_decimals, number_at};
ghost use Rattle.rules.specs.Answer.{answer_of};

use layouts::limits::LONGEST_TEXT;
use rules::Refusal;

const CAP: u64 = 5_000_000_000_000_000_000;

const CAP_TENTH: u64 = 500_000_000_000_000_000;

// The ordinal of the time 0.
const ZERO: u64 = 0x8000_0000_0000_0000;

// A nanosecond is the ninth decimal of a second.
const DECIMALS: usize = 9;

// An encoded count.
pub fn read_count(text: &[u8]) -> Result<u64, Refusal>
    ensures { answer_of result ≡ capped_count (read_count text.now) }
{
    let n = text.len();
    if LONGEST_TEXT < n {
        return Err(Refusal::TextTooLong);
    }
    let at = digits_end(text, 0);
    if at < n {
        return Err(Refusal::ByteNotAllowed { at });
    }
    if n == 0 {
        return Err(Refusal::FirstFieldMissing);
    }
    Ok(number(text))
}

// A time, in seconds or in nanoseconds.
pub fn read_time(text: &[u8], seconds: bool) -> Result<i64, Refusal>
    ensures { answer_of result ≡ capped_time (read_time_by seconds text.now) }
{
    if seconds {
        return seconds_in(text);
    }
    nanoseconds_in(text)
}

fn nanoseconds_in(text: &[u8]) -> Result<i64, Refusal>
    ensures { answer_of result ≡ capped_time (read_time text.now) }
{
    let n = text.len();
    if LONGEST_TEXT < n {
        return Err(Refusal::TextTooLong);
    }
    let first = sign_length(text);
    let at = digits_end(text, first);
    if at < n {
        return Err(Refusal::ByteNotAllowed { at });
    }
    if n <= first {
        return Err(Refusal::FirstFieldMissing);
    }
    Ok(with_sign(is_minus(text), number(&text[first..n])))
}

fn seconds_in(text: &[u8]) -> Result<i64, Refusal>
    ensures { answer_of result ≡ capped_time (read_seconds text.now) }
{
    if LONGEST_TEXT < text.len() {
        return Err(Refusal::TextTooLong);
    }
    let first = sign_length(text);
    let point = digits_end(text, first);
    let decimal = point_end(text, point);
    let at = digits_end(text, decimal);
    if at < text.len() {
        return Err(Refusal::ByteNotAllowed { at });
    }
    if point <= first {
        return Err(Refusal::FirstFieldMissing);
    }
    if !all_zeros(text, decimal + DECIMALS) {
        return Err(Refusal::NotExact);
    }
    Ok(time_at(text, first, point, decimal))
}

// The time whose whole seconds stand from `first` to `point`, and whose decimals from `decimal` on.
fn time_at(text: &[u8], first: usize, point: usize, decimal: usize) -> i64
    requires { (first ≤ point) × (point ≤ length text.now) × (decimal ≤ longest_text) }
    ensures { result ≡ with_sign (is_minus text.now) (number_at text.now first point decimal) }
{
    let whole = number(&text[first..point]);
    with_sign(is_minus(text), with_decimals(text, decimal, whole))
}

// The place of the first byte from `from` on that is no digit, or the text's length.
fn digits_end(text: &[u8], from: usize) -> usize
    requires { from ≤ length text.now }
    ensures value { result ≡ from + run_length is_digit (drop from text.now) }
    ensures lower_bound { (from ≤ result) × (result ≤ length text.now) }
{
    let mut at = from;
    while at < text.len() {
        if !text[at].is_ascii_digit() {
            return at;
        }
        at += 1;
    }
    at
}

// The number that digits spell.
fn number(digits: &[u8]) -> u64
    ensures { result ≡ min (spelled digits.now) number_cap }
{
    let mut x = 0;
    let mut i = 0;
    while i < digits.len() {
        x = next_value(x, digit_value(digits[i]));
        i += 1;
    }
    x
}

// The whole seconds with nine decimals behind them, the first at `from`; those that are not there are 0.
fn with_decimals(text: &[u8], from: usize, whole: u64) -> u64
    requires { (from ≤ longest_text) × (whole ≤ number_cap) }
    ensures { result ≡ min (spelled_from whole (nine_decimals (drop from text.now))) number_cap }
{
    let mut x = whole;
    let mut i = 0;
    while i < DECIMALS {
        x = next_value(x, digit_value(decimal_at(text, from + i)));
        i += 1;
    }
    x
}

// The digit at a place, `0` behind the end.
fn decimal_at(text: &[u8], at: usize) -> u8
    ensures { result ≡ get_or text.now at 48 }
{
    if at < text.len() {
        return text[at];
    }
    b'0'
}

// Ten times the value and one more digit.
fn next_value(x: u64, d: u8) -> u64
    requires { x ≤ number_cap }
    ensures { result ≡ min (10 * x + d) number_cap }
{
    if CAP_TENTH <= x {
        return CAP;
    }
    let next = 10 * x + u64::from(d);
    if CAP < next {
        return CAP;
    }
    next
}

fn digit_value(byte: u8) -> u8
    ensures { result ≡ byte - 48 }
{
    byte.saturating_sub(b'0')
}

fn with_sign(minus: bool, n: u64) -> i64
    requires { n ≤ number_cap }
    ensures { result ≡ with_sign minus n }
{
    if minus {
        return signed::from_ordinal(ZERO - n);
    }
    signed::from_ordinal(ZERO + n)
}

fn sign_length(text: &[u8]) -> usize
    ensures value { result ≡ sign_length text.now }
    ensures upper_bound { result ≤ length text.now }
{
    if is_minus(text) {
        return 1;
    }
    0
}

#[tactic(auto, using(crate::proofs::Signs::minus_at))]
fn is_minus(text: &[u8]) -> bool
    ensures { result ≡ is_minus text.now }
{
    text.starts_with(b"-")
}

// The place behind a point that stands at `at`, or `at` itself.
#[tactic(auto, using(crate::proofs::Points::point_past), unfolding(crate::specs::Places::point_end))]
fn point_end(text: &[u8], at: usize) -> usize
    requires { at ≤ length text.now }
    ensures value { result ≡ point_end text.now at }
    ensures upper_bound { result ≤ length text.now }
{
    if at < text.len() && text[at] == b'.' {
        return at + 1;
    }
    at
}

// Nothing but `0` from the place `from` on.
fn all_zeros(text: &[u8], from: usize) -> bool
    ensures { result ≡ all (λ b. eqb b 48) (drop from text.now) }
{
    let mut i = from;
    while i < text.len() {
        if text[i] != b'0' {
            return false;
        }
        i += 1;
    }
    true
}

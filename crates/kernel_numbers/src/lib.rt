// A number of a kernel text as a whole number of units: sign, digits, point and exponent, each of any length.
#![tactic(auto)]

ghost use Rattle.std.specs.Prelude.{◌≡◌, false, ◌&&◌, ◌||◌, cond, ◌+◌, ◌*◌, ◌-◌, ◌^◌, ◌≤◌, ◌<◌, min, ltb, length, drop, get_or, SomeIff, Some};
ghost use Rattle.rules.specs.Text.{is_digit};
ghost use Rattle.kernel_rules.specs.Lines.{longest_line};
ghost use Rattle.kernel_rules.specs.Numbers.{is_sign, is_point, is_letter, after_one, after_digits, has_form, is_number, followed, with_sign, quotient, number_in};
ghost use Rattle.kernel_numbers.specs.Pass.{digits, zeros_of, beyond, few, Fitting, with_digit, digits_from, power_cap, power_sign_after, minus_after, value_of};

use kernel_lines::kinds::{ByteKind, after};
use kernel_rules::{LONGEST_LINE, Number};

// A number as `head` with `zeros` zeros behind it. Where it has no room in 64 bits, also without the zeros at its end, there is none.
#[derive(Clone, Copy)]
pub struct Digits {
    pub head: u64,
    pub zeros: usize,
}

// What the bytes up to the place `at` give.
#[derive(Clone, Copy)]
pub struct Run<T> {
    pub at: usize,
    pub value: T,
}

// So many digits have room in 64 bits.
const FEW: usize = 19;

const POWER_CAP: usize = 1000;

struct Digit;

impl ByteKind for Digit {
    ghost is_one = { is_digit };

    fn is_one(b: u8) -> bool {
        b'0' <= b && b <= b'9'
    }
}

struct Sign;

impl ByteKind for Sign {
    ghost is_one = { is_sign };

    fn is_one(b: u8) -> bool {
        matches!(b, b'+' | b'-')
    }
}

struct Point;

impl ByteKind for Point {
    ghost is_one = { is_point };

    fn is_one(b: u8) -> bool {
        b == b'.'
    }
}

// Of an exponent.
struct Letter;

impl ByteKind for Letter {
    ghost is_one = { is_letter };

    fn is_one(b: u8) -> bool {
        matches!(b, b'E' | b'e' | b'D' | b'd')
    }
}

// Whether the bytes are a number, by their form alone.
#[tactic(auto, unfolding(kernel_rules::specs::Numbers::is_number))]
pub fn is_number(w: &[u8]) -> bool
    ensures { result ≡ is_number w.now }
{
    w.len() <= LONGEST_LINE && has_form(w)
}

fn has_form(w: &[u8]) -> bool
    ensures { result ≡ has_form w.now }
{
    let sign_end = after_one::<Sign>(w, 0);
    let whole_end = after_digits(w, sign_end);
    let point_end = after_one::<Point>(w, whole_end);
    let decimals_end = after_digits(w, point_end);
    let letter_end = after_one::<Letter>(w, decimals_end);
    let power_sign_end = after_power_sign(w, decimals_end, letter_end);
    let power_end = after_digits(w, power_sign_end);
    well_formed(
        (whole_end - sign_end) + (decimals_end - point_end),
        letter_end == decimals_end,
        power_sign_end < power_end,
        power_end == w.len(),
    )
}

// The number in units of 10^-scale.
pub fn read_number(w: &[u8], scale: usize) -> Number
    requires { scale ≤ 12 }
    ensures { result ≡ number_in scale w.now }
{
    if LONGEST_LINE < w.len() {
        return Number::Malformed;
    }
    read_short(w, scale)
}

fn read_short(w: &[u8], scale: usize) -> Number
    requires { (length w.now ≤ longest_line) × (scale ≤ 12) }
    ensures { result ≡ number_in scale w.now }
{
    let sign_end = after_one::<Sign>(w, 0);
    let whole = digits_from(w, sign_end, Some(Digits { head: 0, zeros: 0 }));
    let whole_end = whole.at;
    let point_end = after_one::<Point>(w, whole_end);
    let both = digits_from(w, point_end, whole.value);
    let decimals_end = both.at;
    let letter_end = after_one::<Letter>(w, decimals_end);
    let power_sign_end = after_power_sign(w, decimals_end, letter_end);
    let power = read_power(w, power_sign_end);
    let power_end = power.at;
    if !well_formed(
        (whole_end - sign_end) + (decimals_end - point_end),
        letter_end == decimals_end,
        power_sign_end < power_end,
        power_end == w.len(),
    ) {
        return Number::Malformed;
    }
    shifted(
        byte_at(w, 0) == b'-',
        both.value,
        scale,
        decimals_end - point_end,
        power.value,
        is_power_minus(w, decimals_end, letter_end),
    )
}

// A digit before or after the point; plain, or one after a letter; and nothing behind.
fn well_formed(digits: usize, plain: bool, power: bool, end: bool) -> bool
    ensures { result ≡ (ltb 0 digits && (plain || power) && end) }
{
    0 < digits && (plain || power) && end
}

// The digits from `from` on, as more of the number `begun`. Few bytes hold no number that is too large.
fn digits_from(w: &[u8], from: usize, begun: Option<Digits>) -> Run<Option<Digits>>
    requires zeros_le_from { (zeros_of begun ≤ from) × (from ≤ length w.now) }
    requires fitting { Fitting (length w.now) from begun }
    ensures at_value { result.at ≡ after_digits w.now from }
    ensures digits_value { result.value ≡ digits_from begun (drop from w.now) }
    ensures from_le_at { (from ≤ result.at) × (zeros_of result.value ≤ result.at) × (result.at ≤ length w.now) }
    ensures fitting_2 { Fitting (length w.now) result.at result.value }
{
    if FEW < w.len() {
        return run_on(w, from, begun);
    }
    let few = run_few(w, from, begun.unwrap().head);
    Run {
        at: few.at,
        value: Some(Digits {
            head: few.value,
            zeros: 0,
        }),
    }
}

// The same of so few bytes that every digit has room.
fn run_few(w: &[u8], from: usize, begun: u64) -> Run<u64>
    requires { (from ≤ length w.now) × (length w.now ≤ few) × (begun < 10 ^ from) }
    ensures at_value { result.at ≡ after_digits w.now from }
    ensures head_value { Some (digits result.value 0) ≡ digits_from (Some (digits begun 0)) (drop from w.now) }
    ensures from_le_at { (from ≤ result.at) × (result.at ≤ length w.now) × (result.value < 10 ^ result.at) }
{
    let mut at = from;
    let mut value = begun;
    while at < w.len() && Digit::is_one(w[at]) {
        value = value * 10 + u64::from(w[at] - b'0');
        at += 1;
    }
    Run { at, value }
}

// The same of any number of bytes.
fn run_on(w: &[u8], from: usize, begun: Option<Digits>) -> Run<Option<Digits>>
    requires { (zeros_of begun ≤ from) × (from ≤ length w.now) }
    ensures at_value { result.at ≡ after_digits w.now from }
    ensures digits_value { result.value ≡ digits_from begun (drop from w.now) }
    ensures from_le_at { (from ≤ result.at) × (zeros_of result.value ≤ result.at) × (result.at ≤ length w.now) }
{
    let mut at = from;
    let mut value = begun;
    while at < w.len() && Digit::is_one(w[at]) {
        value = with_digit(value, w[at] - b'0');
        at += 1;
    }
    Run { at, value }
}

// One digit more.
fn with_digit(digits: Option<Digits>, d: u8) -> Option<Digits>
    requires { zeros_of digits + 1 < 2 ^ 64 }
    ensures { result ≡ with_digit digits d }
{
    let k = digits?;
    if k.zeros != 0 {
        return with_digit_beyond(k, d);
    }
    match appended(k.head, d) {
        Some(head) => Some(Digits { head, zeros: 0 }),
        None => with_digit_beyond(k, d),
    }
}

// Where there is no room for the digit, a 0 is counted, and any other is too much for good.
#[tactic(auto, unfolding(crate::specs::Pass::beyond))]
fn with_digit_beyond(k: Digits, d: u8) -> Option<Digits>
    requires { k.zeros + 1 < 2 ^ 64 }
    ensures { result ≡ beyond k.head k.zeros d }
{
    if d == 0 {
        Some(Digits {
            head: k.head,
            zeros: k.zeros + 1,
        })
    } else {
        None
    }
}

// The digit behind the head, where it has room.
fn appended(head: u64, d: u8) -> Option<u64>
    ensures { SomeIff result (head * 10 + d < 2 ^ 64) (head * 10 + d) }
{
    head.checked_mul(10)?.checked_add(u64::from(d))
}

// The digits of an exponent; POWER_CAP for any number as large or larger.
fn read_power(w: &[u8], from: usize) -> Run<usize>
    requires { from ≤ length w.now }
    ensures at_value { result.at ≡ after_digits w.now from }
    ensures value_value { result.value ≡ min (followed 0 (drop from w.now)) power_cap }
    ensures from_le_at { (from ≤ result.at) × (result.at ≤ length w.now) }
{
    let mut at = from;
    let mut value = 0;
    while at < w.len() && Digit::is_one(w[at]) {
        value = (value * 10 + usize::from(w[at] - b'0')).min(POWER_CAP);
        at += 1;
    }
    Run { at, value }
}

// The digits in units of 10^-scale, where `places` of them are behind the point.
fn shifted(
    minus: bool,
    digits: Option<Digits>,
    scale: usize,
    places: usize,
    power: usize,
    down: bool,
) -> Number
    requires { (scale + power + zeros_of digits < 2 ^ 64) × (places + power < 2 ^ 64) }
    ensures { result ≡ value_of minus digits (scale + cond down 0 power) (places + cond down power 0) }
{
    if down {
        in_units(minus, digits, scale, places + power)
    } else {
        in_units(minus, digits, scale + power, places)
    }
}

// The digits times 10^up, divided by 10^down.
#[tactic(auto, unfolding(crate::specs::Pass::value_of))]
fn in_units(minus: bool, digits: Option<Digits>, up: usize, down: usize) -> Number
    requires { up + zeros_of digits < 2 ^ 64 }
    ensures { result ≡ value_of minus digits up down }
{
    match digits {
        None => Number::Inexact,
        Some(k) => head_in_units(minus, k.head, up + k.zeros, down),
    }
}

#[tactic(auto, using(crate::proofs::Steps::head_down, crate::proofs::Steps::head_up))]
fn head_in_units(minus: bool, head: u64, up: usize, down: usize) -> Number
    ensures { result ≡ quotient minus (head * 10 ^ (up - down)) (10 ^ (down - up)) }
{
    if up < down {
        divided(minus, head, down - up)
    } else {
        raised(minus, head, up - down)
    }
}

// head times 10^power. A head other than 0 has room for at most nineteen zeros.
fn raised(minus: bool, head: u64, power: usize) -> Number
    ensures { result ≡ quotient minus (head * 10 ^ power) 1 }
{
    if head == 0 {
        return with_sign(minus, 0);
    }
    let mut value = head;
    let mut left = power;
    while 0 < left {
        match value.checked_mul(10) {
            Some(more) => value = more,
            None => return Number::Inexact,
        }
        left -= 1;
    }
    with_sign(minus, value)
}

// head divided by 10^power. A head other than 0 has at most nineteen zeros at its end.
fn divided(minus: bool, head: u64, power: usize) -> Number
    ensures { result ≡ quotient minus head (10 ^ power) }
{
    if head == 0 {
        return with_sign(minus, 0);
    }
    let mut value = head;
    let mut left = power;
    while 0 < left {
        if value % 10 != 0 {
            return Number::Inexact;
        }
        value = value / 10;
        left -= 1;
    }
    with_sign(minus, value)
}

#[tactic(auto, unfolding(kernel_rules::specs::Numbers::with_sign))]
fn with_sign(minus: bool, v: u64) -> Number
    ensures { result ≡ with_sign minus v }
{
    if minus {
        Number::Minus(v)
    } else {
        Number::Plus(v)
    }
}

// The place after the digits that stand from `from` on.
#[tactic(auto, unfolding(kernel_rules::specs::Numbers::after_digits))]
fn after_digits(w: &[u8], from: usize) -> usize
    requires { from ≤ length w.now }
    ensures value { result ≡ after_digits w.now from }
    ensures lower_bound { (from ≤ result) × (result ≤ length w.now) }
{
    after::<Digit>(w, from)
}

// The place after one byte of a kind, if it stands at the place `at`.
fn after_one<K: ByteKind>(w: &[u8], at: usize) -> usize
    requires at_in_bounds { at ≤ length w.now }
    requires none_behind { K.is_one 0 ≡ false }
    ensures value { result ≡ after_one K.is_one w.now at }
    ensures lower_bound { (at ≤ result) × (result ≤ length w.now) }
{
    if at < w.len() && K::is_one(w[at]) {
        at + 1
    } else {
        at
    }
}

// The sign of an exponent, by the places where the decimals and where its letter end.
#[tactic(auto, unfolding(crate::specs::Pass::power_sign_after))]
fn after_power_sign(w: &[u8], decimals: usize, letter: usize) -> usize
    requires { letter ≤ length w.now }
    ensures value { result ≡ power_sign_after w.now decimals letter }
    ensures lower_bound { (letter ≤ result) × (result ≤ length w.now) }
{
    if decimals < letter {
        after_one::<Sign>(w, letter)
    } else {
        letter
    }
}

#[tactic(auto, unfolding(crate::specs::Pass::minus_after))]
fn is_power_minus(w: &[u8], decimals: usize, letter: usize) -> bool
    ensures { result ≡ minus_after w.now decimals letter }
{
    decimals < letter && byte_at(w, letter) == b'-'
}

// The byte at a place, 0 behind the end.
#[tactic(auto, using(crate::proofs::Steps::byte_none))]
fn byte_at(w: &[u8], at: usize) -> u8
    ensures { result ≡ get_or w.now at 0 }
{
    if at < w.len() { w[at] } else { 0 }
}

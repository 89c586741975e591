// Quotients of a two-word product by one word, worked out bit by bit: shift and subtract, and no division. The divisor is at most
// 2^63, so that twice a rest fits a word.
#![tactic(auto)]

ghost use Rattle.std.specs.Prelude.{◌≡◌, ◌+◌, ◌*◌, ◌^◌, ◌<◌, ◌≤◌, if◌then◌else◌};
ghost use Rattle.base.specs.Rounding.{round_down, round_up};
ghost use Rattle.quotient.specs.Quotient.{fit};
ghost use Rattle.quotient.specs.Steps.{Divided, Length, UnderWay, Raised, dividend, digit_at, lowered};

use wide::{high, low};

// 2^63: the top bit of a word.
const HALF: u64 = 9223372036854775808;

// A whole quotient, and the rest.
#[derive(Clone, Copy)]
struct Division {
    quotient: u64,
    rest: u64,
}

// A division under way. The last `known` digits of `word` are the quotient so far; those above them are digits of the dividend, behind `rest`.
#[derive(Clone, Copy)]
struct Step {
    rest: u64,
    word: u64,
    known: u32,
}

// `a * b / d`, rounded down. None where it does not fit 64 bits, and where `d` is 0.
pub fn div_down(a: u64, b: u64, d: u64) -> Option<u64>
    requires { d ≤ 2 ^ 63 }
    ensures { result ≡ fit d (round_down (a * b) d) }
{
    let hi = high(a, b);
    if d <= hi {
        return None;
    }
    let by = divide(hi, low(a, b), d);
    Some(by.quotient)
}

// The same rounded up.
pub fn div_up(a: u64, b: u64, d: u64) -> Option<u64>
    requires { d ≤ 2 ^ 63 }
    ensures { result ≡ fit d (round_up (a * b) d) }
{
    let hi = high(a, b);
    if d <= hi {
        return None;
    }
    let by = divide(hi, low(a, b), d);
    if by.rest == 0 {
        return Some(by.quotient);
    }
    by.quotient.checked_add(1)
}

// The number `hi` times 2^64 plus `lo` by `d`.
fn divide(hi: u64, lo: u64, d: u64) -> Division
    requires { (hi < d) × (d ≤ 2 ^ 63) }
    ensures { Divided (hi * 2 ^ 64 + lo) d result.quotient result.rest }
{
    let from = skip_zeros(hi, lo, d);
    digits(from.rest, from.word, d, from.known)
}

// Passes over zeros in front of the quotient: the lengths of the two numbers tell how many.
fn skip_zeros(hi: u64, lo: u64, d: u64) -> Step
    requires { (hi < d) × (d ≤ 2 ^ 63) }
    ensures { UnderWay (hi * 2 ^ 64 + lo) d result.rest result.word result.known }
{
    let n = length(hi, lo);
    let m = bit_length(d);
    if n < m {
        return Step {
            rest: lo,
            word: 0,
            known: 64,
        };
    }
    if m + 63 <= n {
        return Step {
            rest: hi,
            word: lo,
            known: 0,
        };
    }
    let zeros = m + 63 - n;
    Step {
        rest: (hi << zeros) + (lo >> (64 - zeros)),
        word: lo << zeros,
        known: zeros,
    }
}

// One digit of the quotient a turn: a digit of the dividend leaves `w` at the top, and one of the quotient comes in below. `y` is
// twice the rest and the leaving digit, raised (see `turn`). The next digit is looked up a turn early, so that no turn waits for `w`.
fn digits(rest: u64, word: u64, d: u64, known: u32) -> Division
    requires { (rest < d) × (d ≤ 2 ^ 63) × (known ≤ 64) }
    ensures { Divided (dividend d rest word known) d result.quotient result.rest }
{
    let mut y = rest + rest + (word >> 63) + (HALF - d);
    let mut w = word;
    for _k in known..64 {
        let next = bit(w, 62);
        let by = turn(y, next, d);
        w = (w << 1) + by.quotient;
        y = by.rest;
    }
    Division {
        quotient: w,
        rest: (y - (HALF - d)) >> 1,
    }
}

// `y` is a number x below `d + d`, with 2^63 - d added: so its top bit tells whether x reaches `d`. Divides 2 x + `next` by `d + d`, which
// has the same quotient as x by `d`; the rest is returned with 2^63 - d added. The choice compiles to no branch.
fn turn(y: u64, next: u64, d: u64) -> Division
    requires { Raised d y × (d ≤ 2 ^ 63) × (next < 2) }
    ensures { Divided (lowered d y + lowered d y + next) (d + d) result.quotient (lowered d result.rest) × Raised d result.rest }
{
    let reached = HALF <= y;
    let part = either(reached, std::num::wrapping_add_u64(HALF, d), HALF - d);
    let twice = std::num::wrapping_add_u64(std::num::wrapping_add_u64(y, y), next);
    Division {
        quotient: reached as u64,
        rest: std::num::wrapping_sub_u64(twice, part),
    }
}

fn either(flag: bool, a: u64, b: u64) -> u64
    ensures { result ≡ (if flag then a else b) }
{
    if flag { a } else { b }
}

// The binary digit of `word` with the weight 2^k.
fn bit(word: u64, k: u32) -> u64
    requires { k < 64 }
    ensures { result ≡ digit_at word k }
{
    (word >> k) & 1
}

// How many binary digits a two-word number has: none for 0.
fn length(hi: u64, lo: u64) -> u32
    ensures { Length 128 (hi * 2 ^ 64 + lo) result }
{
    let upper = bit_length(hi) + 64;
    let lower = bit_length(lo);
    if hi == 0 { lower } else { upper }
}

// The same of one word.
fn bit_length(x: u64) -> u32
    ensures { Length 64 x result }
{
    64 - u64::leading_zeros(x)
}

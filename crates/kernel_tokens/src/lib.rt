// What stands on a data line: the width of each token, and what the tokens do to a list.
#![tactic(auto)]

ghost use Rattle.std.specs.Prelude.{◌≡◌, ◌+◌, ◌≤◌, ◌<◌, cond, length, drop};
ghost use Rattle.kernel_rules.specs.Tokens.{width_at, token_at, tokens_of, is_number_or_date, with_number, with_string, with_comma, with_close, item, items};

use crate::values::{ends_value, is_string, string_width, value_width};
use kernel_lines::line_bytes::is_gap;
use kernel_numbers::is_number;
use kernel_rules::Stage;

mod values;

// What the tokens from a place on leave of a list.
pub fn items_from(l: &[u8], from: usize, start: Stage) -> Stage
    requires { from ≤ length l.now }
    ensures { result ≡ items start (tokens_of (drop from l.now)) }
{
    let mut i = from;
    let mut p = start;
    while i < l.len() {
        if is_gap(l[i]) {
            i += 1;
        } else {
            let end = i + width_at(l, i);
            p = item(&l[i..end], p);
            i = end;
        }
    }
    p
}

// The width of the gap byte, comma, parenthesis or value at place i.
pub fn width_at(l: &[u8], i: usize) -> usize
    requires { i < length l.now }
    ensures value { result ≡ width_at (drop i l.now) }
    ensures lower_bound { (1 ≤ result) × (i + result ≤ length l.now) }
{
    let b = l[i];
    if ends_value(b) {
        return 1;
    }
    if b == b'\'' {
        return string_width(l, i + 1) + 1;
    }
    value_width(l, i + 1) + 1
}

// What a token does to a list.
#[tactic(auto, unfolding(kernel_rules::specs::Tokens::item, kernel_rules::specs::Tokens::item_by))]
pub fn item(t: &[u8], p: Stage) -> Stage
    requires { 0 < length t.now }
    ensures { result ≡ item p t.now }
{
    match t[0] {
        b',' => with_comma(p),
        b'(' => Stage::Forbidden,
        b')' => with_close(p),
        b'\'' => with_string(p, is_string(t)),
        _ => with_number(p, is_number_or_date(t)),
    }
}

#[tactic(auto, unfolding(kernel_rules::specs::Tokens::is_number_or_date))]
fn is_number_or_date(t: &[u8]) -> bool
    requires { 0 < length t.now }
    ensures { result ≡ is_number_or_date t.now }
{
    t[0] == b'@' || is_number(t)
}

#[tactic(auto, unfolding(kernel_rules::specs::Tokens::with_comma))]
pub fn with_comma(p: Stage) -> Stage
    ensures { result ≡ with_comma p }
{
    match p {
        Stage::Opened | Stage::Numbers | Stage::Strings => p,
        Stage::Comment | Stage::Data | Stage::Forbidden => Stage::Forbidden,
    }
}

#[tactic(auto, unfolding(kernel_rules::specs::Tokens::with_close))]
pub fn with_close(p: Stage) -> Stage
    ensures { result ≡ with_close p }
{
    match p {
        Stage::Numbers | Stage::Strings => Stage::Data,
        Stage::Opened | Stage::Comment | Stage::Data | Stage::Forbidden => Stage::Forbidden,
    }
}

#[tactic(auto, unfolding(kernel_rules::specs::Tokens::with_number))]
fn with_number(p: Stage, good: bool) -> Stage
    ensures { result ≡ with_number p good }
{
    match p {
        Stage::Opened | Stage::Numbers if good => Stage::Numbers,
        _ => Stage::Forbidden,
    }
}

#[tactic(auto, unfolding(kernel_rules::specs::Tokens::with_string))]
fn with_string(p: Stage, good: bool) -> Stage
    ensures { result ≡ with_string p good }
{
    match p {
        Stage::Opened | Stage::Strings if good => Stage::Strings,
        _ => Stage::Forbidden,
    }
}

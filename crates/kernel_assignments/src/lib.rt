// One line of a kernel text: the marker, the assignment or the part of a list that it is, and the stage that it leaves.
#![tactic(auto)]

ghost use Rattle.std.specs.Prelude.{◌≡◌, cond, ◌≤◌, length, drop};
ghost use Rattle.base.specs.Scans.{all};
ghost use Rattle.kernel_rules.specs.Lines.{is_plain, is_data_line, is_empty_line, is_marker};
ghost use Rattle.kernel_rules.specs.Tokens.{tokens_of, items};
ghost use Rattle.kernel_rules.specs.Assignments.{value_stage, assigned, begins_data, begins_text, plain_stage, after_line};

use kernel_heads::{equals_at, is_name, name_in, stripped};
use kernel_lines::line_bytes::{after_gap, same};
use kernel_rules::{LONGEST_LINE, Stage};
use kernel_tokens::{item, items_from, width_at, with_close};

// The stage after a line. Few lines begin with a backslash, and no other is a marker.
pub fn after_line(p: Stage, l: &[u8]) -> Stage
    ensures { result ≡ after_line p l.now }
{
    let start = after_gap(l, 0);
    if l.len() <= start {
        return plain_stage(p, l);
    }
    if l[start] != b'\\' {
        return plain_stage(p, l);
    }
    if is_marker(b"\\begindata", l) {
        return begins_data(p);
    }
    if is_marker(b"\\begintext", l) {
        return begins_text(p);
    }
    plain_stage(p, l)
}

// Whether the line is the marker m.
pub fn is_marker(m: &[u8], l: &[u8]) -> bool
    ensures { result ≡ is_marker m.now l.now }
{
    let whole = stripped(l, l.len());
    same(&l[whole.start..whole.end], m)
}

#[tactic(auto, unfolding(kernel_rules::specs::Assignments::begins_data))]
fn begins_data(p: Stage) -> Stage
    ensures { result ≡ begins_data p }
{
    match p {
        Stage::Comment => Stage::Data,
        Stage::Data | Stage::Opened | Stage::Numbers | Stage::Strings | Stage::Forbidden => p,
    }
}

#[tactic(auto, unfolding(kernel_rules::specs::Assignments::begins_text))]
fn begins_text(p: Stage) -> Stage
    ensures { result ≡ begins_text p }
{
    match p {
        Stage::Comment | Stage::Data => Stage::Comment,
        Stage::Opened | Stage::Numbers | Stage::Strings | Stage::Forbidden => Stage::Forbidden,
    }
}

#[tactic(auto, unfolding(kernel_rules::specs::Assignments::plain_stage))]
fn plain_stage(p: Stage, l: &[u8]) -> Stage
    ensures { result ≡ plain_stage p l.now }
{
    match p {
        Stage::Comment | Stage::Forbidden => p,
        Stage::Data => data_stage(l),
        Stage::Opened | Stage::Numbers | Stage::Strings => list_stage(p, l),
    }
}

fn list_stage(p: Stage, l: &[u8]) -> Stage
    ensures { result ≡ cond (is_data_line l.now) (items p (tokens_of l.now)) Stage.Forbidden }
{
    if is_data_line(l) {
        items_from(l, 0, p)
    } else {
        Stage::Forbidden
    }
}

#[tactic(auto, unfolding(kernel_rules::specs::Assignments::plain_stage))]
fn data_stage(l: &[u8]) -> Stage
    ensures { result ≡ plain_stage Stage.Data l.now }
{
    if !is_data_line(l) {
        return Stage::Forbidden;
    }
    if is_empty_line(l) {
        return Stage::Data;
    }
    assigned_stage(l)
}

#[tactic(auto, unfolding(kernel_rules::specs::Lines::is_data_line))]
fn is_data_line(l: &[u8]) -> bool
    ensures { result ≡ is_data_line l.now }
{
    l.len() <= LONGEST_LINE && all_plain(l)
}

// Over the whole line, with no way out before its end: so the compiler takes many bytes at a time.
fn all_plain(l: &[u8]) -> bool
    ensures { result ≡ all is_plain l.now }
{
    let mut good = true;
    for b in l {
        good &= is_plain(*b);
    }
    good
}

fn is_plain(b: u8) -> bool
    ensures { result ≡ is_plain b }
{
    b' ' <= b && b <= b'~' || b == b'\t'
}

fn is_empty_line(l: &[u8]) -> bool
    ensures { result ≡ is_empty_line l.now }
{
    after_gap(l, 0) == l.len()
}

fn assigned_stage(l: &[u8]) -> Stage
    ensures { result ≡ assigned l.now }
{
    let equals = equals_at(l);
    if l.len() <= equals {
        return Stage::Forbidden;
    }
    let name = name_in(l);
    if !is_name(&l[name.start..name.end]) {
        return Stage::Forbidden;
    }
    value_stage(l, equals + 1)
}

// What follows the operator: one value, or a list's beginning. A value by itself has nothing behind it.
fn value_stage(l: &[u8], from: usize) -> Stage
    requires { from ≤ length l.now }
    ensures { result ≡ value_stage (tokens_of (drop from l.now)) }
{
    let at = after_gap(l, from);
    if l.len() <= at {
        return Stage::Forbidden;
    }
    if l[at] == b'(' {
        return items_from(l, at + 1, Stage::Opened);
    }
    let end = at + width_at(l, at);
    if after_gap(l, end) < l.len() {
        return Stage::Forbidden;
    }
    with_close(item(&l[at..end], Stage::Opened))
}

// The lines of a kernel text. The reader keeps the text and its place in it as one thing.
#![tactic(auto)]

ghost use Rattle.std.specs.Prelude.{◌≡◌, ◌≤◌, ◌<◌, length};
ghost use Rattle.kernel_rules.specs.Lines.{is_return, trim_one, kept_of};
ghost use Rattle.kernel_lines.specs.Places.{line_at};

use crate::kinds::{Blank, trim};

pub mod kinds;
pub mod line_bytes;

const RETURN: u8 = 13;

#[derive(Clone, Copy)]
pub struct KernelText<'a> {
    pub text: &'a [u8],
    pub at: usize,
}

// The places of a line in its text: its first byte, the end of what is kept of it, and the first byte of the next line.
#[derive(Clone, Copy)]
pub struct Line {
    pub start: usize,
    pub end: usize,
    pub next: usize,
}

// The line at a place of a text. At or behind the text's end it is empty, and there is no next.
pub fn line_from(text: &[u8], at: usize) -> Line
    ensures { result ≡ line_at text.now at }
{
    line_here(text_at(text, at))
}

// The same of a place in the text, with its bounds.
pub fn line_within(text: &[u8], at: usize) -> Line
    requires { at < length text.now }
    ensures value { result ≡ line_at text.now at }
    ensures at_le_end { (at ≤ result.end) × (result.end ≤ length text.now) × (at < result.next) × (result.next ≤ length text.now) }
{
    line_from(text, at)
}

pub fn text_at<'a>(text: &'a [u8], at: usize) -> KernelText<'a>
    ensures { (result.text ≡ text.entry) × (result.at ≡ at) }
{
    KernelText { text, at }
}

pub fn line_here<'a>(k: KernelText<'a>) -> Line
    ensures { result ≡ line_at k.entry.text.now k.entry.at }
{
    line_at(k.text, k.at)
}

fn line_at(text: &[u8], at: usize) -> Line
    ensures { result ≡ line_at text.now at }
{
    if text.len() <= at {
        return Line {
            start: at,
            end: at,
            next: at,
        };
    }
    let stop = lines::line_end(text, at);
    Line {
        start: at,
        end: at + kept(&text[at..stop]),
        next: text.len().min(stop + 1),
    }
}

// How many bytes of a line are left where blanks and a 13 at its end are dropped.
fn kept(l: &[u8]) -> usize
    ensures value { result ≡ kept_of l.now }
    ensures upper_bound { result ≤ length l.now }
{
    let i = trim::<Blank>(l, l.len());
    let j = trim_return(l, i);
    trim::<Blank>(l, j)
}

fn trim_return(l: &[u8], n: usize) -> usize
    requires { n ≤ length l.now }
    ensures value { result ≡ trim_one is_return l.now n }
    ensures upper_bound { result ≤ n }
{
    if 0 < n && l[n - 1] == RETURN {
        n - 1
    } else {
        n
    }
}

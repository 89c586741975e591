// Clock text to its count, and a stamp to the partition's number and the count: what is written, before any partition is looked at.
#![tactic(auto)]

ghost use Rattle.std.specs.Prelude.{◌≡◌, ◌&&◌, cond, ◌≤◌, ltb, eqb, length, get_or, drop};
ghost use Rattle.base.specs.Scans.{among};
ghost use Rattle.rules.specs.Answer.{answer_as, answer_of};
ghost use Rattle.rules.specs.Text.{bytes_count, parse_text};
ghost use Rattle.rules.specs.Stamp.{parse_stamp};
ghost use Rattle.parse.specs.ParsedStamp.{parsed, capped};

use fields::{begin, count, scan, scan_front};
use layouts::limits::LONGEST_TEXT;
use rules::{Reading, Refusal};

// A stamp as it is written: the partition's number where one stands in front, and the count of its clock text.
#[derive(Clone, Copy)]
pub enum ParsedStamp {
    Named(u64, Reading),
    Unnamed(Reading),
}

// Clock text.
pub fn parse_text(moduli: &[u64], offsets: &[u64], text: &[u8]) -> Result<Reading, Refusal>
    requires { (1 ≤ length moduli.now) × (length offsets.now ≡ length moduli.now) }
    ensures { answer_of result ≡ parse_text moduli.now offsets.now text.now }
{
    if LONGEST_TEXT < text.len() {
        return Err(Refusal::TextTooLong);
    }
    count_from(moduli, offsets, text, 0)
}

// A front part is scanned first; where no `/` ends it, the pass goes on over the rest of the text.
pub fn parse_stamp(moduli: &[u64], offsets: &[u64], text: &[u8]) -> Result<ParsedStamp, Refusal>
    requires { (1 ≤ length moduli.now) × (length offsets.now ≡ length moduli.now) }
    ensures { answer_as parsed result ≡ capped (parse_stamp moduli.now offsets.now text.now) }
{
    if LONGEST_TEXT < text.len() {
        return Err(Refusal::TextTooLong);
    }
    let front = scan_front(text);
    let at = front.at;
    let pass = front.pass;
    if is_slash(text, at) {
        if !pass.present {
            return Err(Refusal::ByteNotAllowed { at });
        }
        let number = pass.value;
        return Ok(ParsedStamp::Named(number, count_from(moduli, offsets, text, at + 1)?));
    }
    let whole = scan(moduli, offsets, text, pass, at);
    let stop = whole.at;
    let passed = whole.pass;
    if text.len() <= stop {
        return Ok(ParsedStamp::Unnamed(count(moduli, offsets, text.len(), passed)?));
    }
    Err(Refusal::ByteNotAllowed {
        at: earliest(text, at, stop),
    })
}

// Whether a `/` stands at the place `at`.
fn is_slash(text: &[u8], at: usize) -> bool
    ensures { result ≡ (ltb at (length text.now) && eqb (get_or text.now at 0) 47) }
{
    at < text.len() && text[at] == b'/'
}

// Which byte is at fault where the one at `stop` is not allowed: before a `/` already the one at `front`, which can't stand in a front part.
fn earliest(text: &[u8], front: usize, stop: usize) -> usize
    ensures { result ≡ cond (among 47 (drop stop text.now)) front stop }
{
    for i in stop..text.len() {
        if text[i] == b'/' {
            return front;
        }
    }
    stop
}

// The count of the text from the place `from` on.
fn count_from(moduli: &[u64], offsets: &[u64], text: &[u8], from: usize) -> Result<Reading, Refusal>
    requires { (1 ≤ length moduli.now) × (length offsets.now ≡ length moduli.now) × (from ≤ length text.now) }
    ensures { answer_of result ≡ bytes_count moduli.now offsets.now text.now from }
{
    let scanned = scan(moduli, offsets, text, begin(), from);
    let at = scanned.at;
    if at < text.len() {
        return Err(Refusal::ByteNotAllowed { at });
    }
    let pass = scanned.pass;
    count(moduli, offsets, text.len(), pass)
}

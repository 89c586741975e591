// Clock text in one pass over its bytes: digits and marks to fields, fields to the count.
#![tactic(auto)]

ghost use Rattle.std.specs.Prelude.{◌≡◌, not, ◌&&◌, cond, ◌+◌, ◌*◌, ◌≤◌, ◌<◌, min, length, drop};
ghost use Rattle.base.specs.Scans.{product};
ghost use Rattle.rules.specs.Text.{is_digit, is_mark};
ghost use Rattle.fields.specs.Pass.{field_cap, sum_cap, begun, faultless, is_surplus, value_fault, fault_in, fault_with, found_with, surplus_in, ticks_in, sum_with, fresh, next, digit_in, with_digit, with_blank, scan_from, front_scan_from, count_of, total};
ghost use Rattle.rules.specs.Answer.{answer_of};

use rules::{Layout, Reading, Refusal};

const LARGEST_FIELD: u64 = Layout::LARGEST_P + Layout::LARGEST_OFFSET;

const FIELD_CAP: u64 = LARGEST_FIELD + 1;

const SUM_CAP: u64 = Layout::LARGEST_P + 1;

// What is wrong with the fields of a text: the first field is missing, a field is below its offset or too large, there is one too many.
#[derive(Clone, Copy)]
pub enum Fault {
    None,
    Missing,
    Below,
    Above,
    Surplus,
}

// What is known after some bytes of a text. Numbers by themselves, so that a step keeps them in registers.
#[derive(Clone, Copy)]
pub struct Pass {
    // The field at hand, from 0; the number of fields for every surplus one.
    pub field: usize,
    // Where its first digit stands.
    pub first: usize,
    // Its value so far, FIELD_CAP for any number as large or larger.
    pub value: u64,
    // The ticks of the fields before it, as ticks of the last of them; SUM_CAP as above.
    pub sum: u64,
    // Where the fault stands.
    pub found: usize,
    // Whether the field at hand has a digit; whether blanks follow its last digit.
    pub present: bool,
    pub gap: bool,
    // The first fault of the fields before it; at a surplus field, of the surplus fields before it.
    pub fault: Fault,
}

// A pass up to the place `at`, where it stops or the text ends.
#[derive(Clone, Copy)]
pub struct Scanned {
    pub at: usize,
    pub pass: Pass,
}

// The pass before the first byte.
pub fn begin() -> Pass
    ensures { result ≡ begun }
{
    fresh_field(0, 0, Fault::None, 0)
}

// The pass from the place `from` on, up to the first byte that is not allowed.
pub fn scan(moduli: &[u64], offsets: &[u64], text: &[u8], pass: Pass, from: usize) -> Scanned
    requires { (length offsets.now ≡ length moduli.now) × (from ≤ length text.now) }
    ensures { result ≡ scan_from moduli.now offsets.now (length text.now) pass from (drop from text.now) }
{
    let end = text.len();
    let mut pass = pass;
    let mut at = from;
    while at < end {
        let byte = text[at];
        if is_digit(byte) {
            pass = with_digit(moduli, offsets, end, pass, at, byte - b'0');
            at += 1;
        } else if is_mark(byte) {
            pass = next_field(moduli, offsets, end, pass);
            at += 1;
        } else if byte == b' ' {
            pass = with_blank(pass);
            at += 1;
        } else {
            return Scanned { at, pass };
        }
    }
    Scanned { at, pass }
}

// The pass from the text's start on, up to the first byte that can't stand in a front part: blanks, one run of digits, blanks.
pub fn scan_front(text: &[u8]) -> Scanned
    ensures { result ≡ front_scan_from begun 0 text.now }
{
    let end = text.len();
    let mut pass = begin();
    let mut at = 0;
    while at < end {
        let byte = text[at];
        if byte == b' ' {
            pass = with_blank(pass);
            at += 1;
        } else if begins_or_continues(byte, pass.gap) {
            pass = digit_in(pass, at, byte - b'0');
            at += 1;
        } else {
            return Scanned { at, pass };
        }
    }
    Scanned { at, pass }
}

// The count of a pass that reached the end of the text, the place `end`.
pub fn count(moduli: &[u64], offsets: &[u64], end: usize, pass: Pass) -> Result<Reading, Refusal>
    requires { length offsets.now ≡ length moduli.now }
    ensures { answer_of result ≡ total moduli.now offsets.now end pass }
{
    let field = pass.field;
    if moduli.len() <= field {
        return Err(Refusal::TooManyFields {
            at: surplus_in(end, pass),
        });
    }
    let offset = offsets[field];
    let found = found_with(pass);
    match fault_with(pass, offset) {
        Fault::None => count_of(moduli, field, sum_with(pass, moduli[field], offset), end),
        Fault::Missing => Err(Refusal::FirstFieldMissing),
        Fault::Below => Err(Refusal::FieldBelowOffset { at: found }),
        Fault::Above => Err(Refusal::TooLarge { at: found }),
        Fault::Surplus => Err(Refusal::TooManyFields { at: found }),
    }
}

// The count of a sum up to the last field given.
#[tactic(auto, unfolding(crate::specs::Pass::count_of, rules::specs::Answer::unless_at, rules::specs::Answer::fails_at))]
fn count_of(moduli: &[u64], field: usize, sum: u64, end: usize) -> Result<Reading, Refusal>
    requires { (field < length moduli.now) × (sum ≤ sum_cap) }
    ensures { answer_of result ≡ count_of end (min (sum * product (drop (field + 1) moduli.now)) sum_cap) }
{
    let ticks = in_ticks(moduli, field + 1, sum);
    if Layout::LARGEST_P < ticks {
        return Err(Refusal::TooLarge { at: end });
    }
    Ok(Reading { count: ticks })
}

// A digit that is not after a gap.
fn begins_or_continues(byte: u8, gap: bool) -> bool
    ensures { result ≡ (not gap && is_digit byte) }
{
    !gap && is_digit(byte)
}

// After a gap a digit stands in the next field.
#[tactic(auto, unfolding(crate::specs::Pass::with_digit))]
fn with_digit(moduli: &[u64], offsets: &[u64], end: usize, pass: Pass, at: usize, d: u8) -> Pass
    requires { length offsets.now ≡ length moduli.now }
    ensures { result ≡ with_digit moduli.now offsets.now end pass at d }
{
    if pass.gap {
        digit_in(next_field(moduli, offsets, end, pass), at, d)
    } else {
        digit_in(pass, at, d)
    }
}

fn digit_in(pass: Pass, at: usize, d: u8) -> Pass
    ensures { result ≡ digit_in pass at d }
{
    Pass {
        first: first_at(pass.present, pass.first, at),
        value: next_value(pass.value, d),
        present: true,
        gap: false,
        ..pass
    }
}

// Where the first digit stands, once there is one at `at`.
fn first_at(present: bool, first: usize, at: usize) -> usize
    ensures { result ≡ cond present first at }
{
    if present { first } else { at }
}

// Ten times the value and one more digit.
fn next_value(value: u64, d: u8) -> u64
    ensures { result ≡ min (value * 10 + d) field_cap }
{
    if FIELD_CAP <= value {
        return FIELD_CAP;
    }
    (value * 10 + u64::from(d)).min(FIELD_CAP)
}

// Blanks open a gap only after a digit.
fn with_blank(pass: Pass) -> Pass
    ensures { result ≡ with_blank pass }
{
    Pass {
        gap: pass.present,
        ..pass
    }
}

// A mark: the field at hand ends. Faults before a surplus field no longer count.
#[tactic(auto, unfolding(crate::specs::Pass::next))]
fn next_field(moduli: &[u64], offsets: &[u64], end: usize, pass: Pass) -> Pass
    requires { length offsets.now ≡ length moduli.now }
    ensures { result ≡ next moduli.now offsets.now end pass }
{
    let n = moduli.len();
    let field = pass.field;
    if n <= field {
        return fresh_field(n, 0, Fault::Surplus, surplus_in(end, pass));
    }
    if n <= field + 1 {
        return fresh_field(n, 0, Fault::None, 0);
    }
    let modulus = moduli[field];
    let offset = offsets[field];
    fresh_field(
        field + 1,
        sum_with(pass, modulus, offset),
        fault_with(pass, offset),
        found_with(pass),
    )
}

// A field of which no digit was met.
fn fresh_field(field: usize, sum: u64, fault: Fault, found: usize) -> Pass
    ensures { result ≡ fresh field sum fault found }
{
    Pass {
        field,
        first: 0,
        value: 0,
        sum,
        found,
        present: false,
        gap: false,
        fault,
    }
}

// Where the first surplus field is refused, which is the one at hand or one before it.
#[tactic(auto, unfolding(crate::specs::Pass::surplus_in))]
fn surplus_in(end: usize, pass: Pass) -> usize
    ensures { result ≡ surplus_in end pass }
{
    if is_surplus(pass.fault) {
        return pass.found;
    }
    first_at(pass.present, pass.first, end)
}

fn is_surplus(fault: Fault) -> bool
    ensures { result ≡ is_surplus fault }
{
    matches!(fault, Fault::Surplus)
}

// The ticks with those of the field at hand.
fn sum_with(pass: Pass, modulus: u64, offset: u64) -> u64
    ensures { result ≡ sum_with pass modulus offset }
{
    wide::mul_add_capped(pass.sum, modulus, ticks_in(pass, offset), SUM_CAP)
}

// A missing field adds no ticks, whatever its offset.
#[tactic(auto, unfolding(crate::specs::Pass::ticks_in))]
fn ticks_in(pass: Pass, offset: u64) -> u64
    ensures { result ≡ ticks_in pass offset }
{
    if pass.present {
        pass.value.saturating_sub(offset)
    } else {
        0
    }
}

// `sum` times the moduli from the field `from` on.
fn in_ticks(moduli: &[u64], from: usize, sum: u64) -> u64
    requires { (from ≤ length moduli.now) × (sum ≤ sum_cap) }
    ensures { result ≡ min (sum * product (drop from moduli.now)) sum_cap }
{
    let mut ticks = sum;
    for i in from..moduli.len() {
        ticks = wide::mul_capped(ticks, moduli[i], SUM_CAP);
    }
    ticks
}

// The first fault, that of the field at hand included.
#[tactic(auto, unfolding(crate::specs::Pass::fault_with))]
fn fault_with(pass: Pass, offset: u64) -> Fault
    ensures { result ≡ fault_with pass offset }
{
    if is_faultless(pass.fault) {
        fault_in(pass, offset)
    } else {
        pass.fault
    }
}

// Where it stands.
#[tactic(auto, unfolding(crate::specs::Pass::found_with))]
fn found_with(pass: Pass) -> usize
    ensures { result ≡ found_with pass }
{
    if is_faultless(pass.fault) {
        pass.first
    } else {
        pass.found
    }
}

fn is_faultless(fault: Fault) -> bool
    ensures { result ≡ faultless fault }
{
    matches!(fault, Fault::None)
}

#[tactic(auto, unfolding(crate::specs::Pass::fault_in))]
fn fault_in(pass: Pass, offset: u64) -> Fault
    ensures { result ≡ fault_in pass offset }
{
    if pass.present {
        return value_fault(pass.value, offset);
    }
    if pass.field == 0 {
        return Fault::Missing;
    }
    Fault::None
}

// Of a field that is there.
#[tactic(auto, unfolding(crate::specs::Pass::value_fault))]
fn value_fault(value: u64, offset: u64) -> Fault
    ensures { result ≡ value_fault value offset }
{
    if LARGEST_FIELD < value {
        return Fault::Above;
    }
    if value < offset {
        return Fault::Below;
    }
    Fault::None
}

fn is_digit(byte: u8) -> bool
    ensures { result ≡ is_digit byte }
{
    byte.is_ascii_digit()
}

fn is_mark(byte: u8) -> bool
    ensures { result ≡ is_mark byte }
{
    matches!(byte, b'.' | b':' | b',' | b'-')
}

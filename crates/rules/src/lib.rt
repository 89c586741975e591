// The types that the definitions name: a clock's layout with its limits, one segment, a refusal, and what the calls answer.
#![tactic(auto)]

pub use refusal::Refusal;
pub use unlisted::Unlisted;

mod refusal;
mod unlisted;

// A clock's fields: n moduli and n offsets, and the code of the output delimiter.
// Slots after the n-th are not looked at.
#[derive(Clone, Copy, Debug, PartialEq, Eq)]
pub struct Layout {
    pub n: usize,
    pub moduli: [u64; Layout::MOST_FIELDS],
    pub offsets: [u64; Layout::MOST_FIELDS],
    pub delimiter: u8,
}

impl Layout {
    pub const MOST_FIELDS: usize = 10;
    // The largest product of the moduli, P.
    pub const LARGEST_P: u64 = 1_000_000_000_000_000;
    // The largest product of the moduli but the first, MSF.
    pub const LARGEST_MSF: u64 = 1_000_000_000_000;

    pub const LARGEST_OFFSET: u64 = 1_000;
}

// One row of a segment table: time in nanoseconds, rate in picoseconds per first-field count.
#[derive(Clone, Copy, Debug, PartialEq, Eq)]
pub struct Segment {
    pub count: u64,
    pub time: i64,
    pub rate: u64,
}

// A segment in doubles: time in seconds, rate in seconds per first-field count.
#[derive(Clone, Copy, Debug, PartialEq)]
pub struct DoubleSegment {
    pub count: f64,
    pub time: f64,
    pub rate: f64,
}

// What reading gives: the count of a text, the encoded count of a stamp or a message.
#[derive(Clone, Copy, Debug, PartialEq, Eq)]
pub struct Reading {
    pub count: u64,
}

// What count to time gives, in nanoseconds.
#[derive(Clone, Copy, Debug, PartialEq, Eq)]
pub struct TimeOfCount {
    pub time: i64,
}

// What time to count gives: an encoded count.
#[derive(Clone, Copy, Debug, PartialEq, Eq)]
pub struct CountAtTime {
    pub count: u64,
}

// A stamp's encoded count, and its time.
#[derive(Clone, Copy, Debug, PartialEq, Eq)]
pub struct TimedStamp {
    pub count: u64,
    pub time: i64,
}

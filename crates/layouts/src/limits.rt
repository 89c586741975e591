// The limits that are not constants of the layout type. Code reads each of them here and nowhere else.
ghost use Rattle.layouts.specs.Limits.{SameLimits};

use rules::Layout;

pub const LAST_DELIMITER: u8 = 5;

pub const MOST_PARTITIONS: usize = 9_999;

pub const MOST_SEGMENTS: usize = 10_000;

// Nanoseconds.
pub const LATEST_TIME: i64 = 4_000_000_000_000_000_000;

pub const EARLIEST_TIME: i64 = -LATEST_TIME;

// In a nanosecond.
pub const PICOSECONDS: u64 = 1_000;

// Picoseconds per first-field count.
pub const LARGEST_RATE: u64 = 1_000_000_000_000_000;

// Bytes.
pub const LONGEST_TEXT: usize = 96;

// Every limit of the code, those of the layout type first.
#[derive(Clone, Copy)]
pub struct Limits {
    pub most_fields: usize,
    pub largest_p: u64,
    pub largest_msf: u64,
    pub largest_offset: u64,
    pub last_delimiter: u8,
    pub most_partitions: usize,
    pub most_segments: usize,
    pub latest_time: i64,
    pub earliest_time: i64,
    pub picoseconds: u64,
    pub largest_rate: u64,
    pub longest_text: usize,
}

// The contract ties them to the definitions' limits.
pub fn all() -> Limits
    ensures { SameLimits result }
{
    Limits {
        most_fields: Layout::MOST_FIELDS,
        largest_p: Layout::LARGEST_P,
        largest_msf: Layout::LARGEST_MSF,
        largest_offset: Layout::LARGEST_OFFSET,
        last_delimiter: LAST_DELIMITER,
        most_partitions: MOST_PARTITIONS,
        most_segments: MOST_SEGMENTS,
        latest_time: LATEST_TIME,
        earliest_time: EARLIEST_TIME,
        picoseconds: PICOSECONDS,
        largest_rate: LARGEST_RATE,
        longest_text: LONGEST_TEXT,
    }
}

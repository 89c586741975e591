// Lists of numbers in bytes, the layout's two, and what a C call returns.
#![tactic(auto)]

use bench_report::{layout, unknown_zero};
use std::rt::Env;

// The ordinal of 0.
pub const ZERO: u64 = 0x8000_0000_0000_0000;

// Room for three numbers that begin at a byte up to 7.
pub const FIELDS: usize = 32;

pub fn put_moduli<R: Env>(rt: &R, list: &mut [u8]) {
    put_numbers(list, &layout(rt).moduli);
}

pub fn put_offsets<R: Env>(rt: &R, list: &mut [u8]) {
    put_numbers(list, &layout(rt).offsets);
}

// The numbers of three fields. They begin at byte 0, which the compiler cannot know, so that they are as unknown as the layout.
pub fn fields<'a, R: Env>(rt: &R, list: &'a [u8]) -> &'a [u8] {
    if list.len() < FIELDS {
        return list;
    }
    let from = (unknown_zero(rt) % 8) as usize;
    &list[from..from + 24]
}

// The bytes of the first numbers.
pub fn first(list: &[u8], rows: usize) -> &[u8] {
    if list.len() / 8 < rows {
        return list;
    }
    &list[..8 * rows]
}

// As many as there is room for.
pub fn put_numbers(list: &mut [u8], numbers: &[u64]) {
    for (place, number) in list.chunks_exact_mut(8).zip(numbers) {
        place.copy_from_slice(&number.to_le_bytes());
    }
}

pub fn put_times(list: &mut [u8], times: &[i64]) {
    for (place, time) in list.chunks_exact_mut(8).zip(times) {
        place.copy_from_slice(&time.to_le_bytes());
    }
}

// An answer as it is, 0 for a refusal.
pub fn returned(answer: i64) -> u64 {
    u64::try_from(answer).unwrap_or(0)
}

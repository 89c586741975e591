// 256 slots of 20 bytes, one behind the other. A slot has a message, that is a stamp `pppp/ddddd:dd:ddd` and its trailer, and
// the stamp's length in its last byte.
ghost use Rattle.std.specs.Prelude.{◌≡◌, ◌<◌, length};

use bench_report::{layout, next, scaled};
use std::rt::Env;

pub const ALL: usize = 5_120;

const SLOTS: usize = 256;

const SLOT: usize = 20;

// Stamps of encoded counts up to `total`.
pub fn fill<R: Env>(rt: &R, slots: &mut [u8], starts: &[u64], ends: &[u64], total: u64)
    requires { total < 1000000000000 }
{
    let mut x: u64 = 1;
    for slot in slots.chunks_exact_mut(SLOT).take(SLOTS) {
        x = next(x);
        put(rt, slot, starts, ends, scaled(x, total));
    }
}

fn put<R: Env>(rt: &R, slot: &mut [u8], starts: &[u64], ends: &[u64], encoded: u64)
    requires { length slot.old ≡ 20 }
{
    let printed = print::print_stamp(layout(rt), starts, ends, encoded, slot);
    let length = printed.unwrap_or(0) % SLOT;
    slot[length] = 0;
    if length + 1 < SLOT {
        slot[length + 1] = length as u8;
    }
    slot[SLOT - 1] = length as u8;
}

// Where the slot of a question begins.
pub fn at(x: u64) -> usize
    ensures { result < 5120 }
{
    (x % 256) as usize * SLOT
}

pub fn message(slots: &[u8], at: usize) -> &[u8]
    requires { at < 5120 }
{
    part(slots, at, at + length(slots, at) + 2)
}

pub fn stamp(slots: &[u8], at: usize) -> &[u8]
    requires { at < 5120 }
{
    part(slots, at, at + length(slots, at))
}

// A stamp of partitions up to 9 without the partition.
pub fn text(slots: &[u8], at: usize) -> &[u8]
    requires { at < 5120 }
{
    part(slots, at + 2, at + length(slots, at))
}

fn length(slots: &[u8], at: usize) -> usize
    requires { at < 5120 }
    ensures { result < 256 }
{
    slots.get(at + SLOT - 1).map_or(0, |size| *size as usize)
}

// All where there is no such part.
fn part(slots: &[u8], from: usize, end: usize) -> &[u8] {
    slots.get(from..end).unwrap_or(slots)
}

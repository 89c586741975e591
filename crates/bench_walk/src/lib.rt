// Walking a dump of packets that is cut at random. Of each packet its length and three of its bytes are looked at.
#![tactic(auto)]

ghost use Rattle.std.specs.Prelude.{◌≡◌, ◌+◌, ◌-◌, ◌<◌, ◌≤◌, length};

use bench_report::{clock, fill_bytes, line, mixed, next, often};
use packet_rules::WalkStep;
use packet_walk::{TAIL_ROOM, next_packet};
use std::io;
use std::rt::{CpuClock, Env};

const DUMP: usize = 1_048_576;

// The bytes of one walk: the dump over and over.
const WALKED: usize = 67_108_864;

// The shortest packet; the longest has TAIL_ROOM bytes.
const SHORTEST: usize = 7;

pub fn bench<R: Env + CpuClock + Print>(rt: &R, timed: bool) -> io::Result<()> {
    let mut dump = dump_room();
    let asked = often(timed, 1_000, 1);
    bench_dump(rt, timed, b"walk-mixed", SHORTEST, true, asked, &mut dump)?;
    bench_dump(rt, timed, b"walk-1k", 1_024, false, asked, &mut dump)?;
    let asked = often(timed, 20, 1);
    bench_dump(rt, timed, b"walk-7", SHORTEST, false, asked, &mut dump)
}

fn dump_room() -> [u8; DUMP]
    ensures { 1048576 ≡ length result }
{
    [0; DUMP]
}

fn tail_room() -> [u8; TAIL_ROOM]
    ensures { 65542 ≡ length result }
{
    [0; TAIL_ROOM]
}

// Packets of `least` bytes; or, where they are mixed, most of up to 4,095 more, every 64th the longest there is.
fn bench_dump<R: Env + CpuClock + Print>(
    rt: &R,
    timed: bool,
    name: &[u8],
    least: usize,
    mixed: bool,
    asked: u64,
    dump: &mut [u8],
) -> io::Result<()>
    requires { (7 ≤ least) × (least ≤ 1024) }
{
    fill_bytes(dump);
    set_lengths(dump, least, mixed);
    let mut buffer = tail_room();
    let from = clock(rt);
    let sum = walks(&mut buffer, dump, asked);
    line(rt, name, asked, sum, timed, from)
}

// The bytes become packets.
fn set_lengths(dump: &mut [u8], least: usize, mixed: bool)
    requires { (7 ≤ least) × (least ≤ 1024) }
{
    let mut x: u64 = 1;
    let mut i: u64 = 0;
    let mut at = 0;
    while at < dump.len() {
        x = next(x);
        let drawn = drawn(x, i, least, mixed);
        let length = fitting(drawn, dump.len() - at);
        set_length(&mut dump[at..], length);
        at += length;
        i = i.wrapping_add(1);
    }
}

// The length of the packet of this number.
fn drawn(x: u64, i: u64, least: usize, mixed: bool) -> usize
    requires { (7 ≤ least) × (least ≤ 1024) }
    ensures { (7 ≤ result) × (result ≤ 65542) }
{
    if !mixed {
        return least;
    }
    if i % 64 == 63 {
        return TAIL_ROOM;
    }
    if i % 16 == 15 {
        return least;
    }
    least + (x / 32_768 % 4_096) as usize
}

// The same where so many bytes are left: what would be too short for another packet goes with it.
fn fitting(length: usize, left: usize) -> usize
    requires in_bounds { (7 ≤ length) × (length ≤ 65542) }
    requires left_nonzero { 0 < left }
    ensures { (0 < result) × (result ≤ left) }
{
    if length + SHORTEST <= left {
        return length;
    }
    if TAIL_ROOM < left {
        return left - SHORTEST;
    }
    left
}

fn set_length(packet: &mut [u8], length: usize) {
    if SHORTEST <= length && SHORTEST <= packet.len() {
        packet[4] = ((length - SHORTEST) / 256 % 256) as u8;
        packet[5] = ((length - SHORTEST) % 256) as u8;
    }
}

fn walks(buffer: &mut [u8], dump: &[u8], asked: u64) -> u64 {
    let mut sum: u64 = 0;
    let mut x: u64 = 1;
    for _ in 0..asked {
        x = next(x);
        sum = mixed(sum, walk(buffer, dump, x));
    }
    sum
}

// Over the dump again and again, in chunks of up to 64 KiB that end with it.
fn walk(buffer: &mut [u8], dump: &[u8], question: u64) -> u64
    requires { question < 2147483648 }
{
    let mut x = question;
    let mut sum: u64 = 0;
    let mut tail = 0;
    let mut at = 0;
    let mut left = WALKED;
    while 0 < left {
        x = next(x);
        if dump.len() <= at {
            return sum;
        }
        let end = cut(x, at, dump.len(), left);
        (sum, tail) = walk_chunk(buffer, tail, &dump[at..end], sum);
        left -= end - at;
        at = around(end, dump.len());
    }
    sum.wrapping_add(tail as u64)
}

// Where a chunk ends.
fn cut(x: u64, at: usize, end: usize, left: usize) -> usize
    requires x_bound { x < 2147483648 }
    requires at_lt_end { (at < end) × (0 < left) }
    ensures lower_bound { (at < result) × (result ≤ end) }
    ensures upper_bound { (result ≤ at + 65536) × (result - at ≤ left) }
{
    let size = 1 + (x / 32_768) as usize;
    at + size.min(end - at).min(left)
}

// The place behind a chunk, or the front again.
fn around(at: usize, end: usize) -> usize {
    if at == end { 0 } else { at }
}

// Step by step: a step for each byte and one more are enough. The sum and the tail.
fn walk_chunk(buffer: &mut [u8], before: usize, chunk: &[u8], sum_before: u64) -> (u64, usize)
    requires { length chunk.now ≤ 65536 }
{
    let mut sum = sum_before;
    let mut tail = before;
    let mut at = 0;
    for _ in 0..=chunk.len() {
        match next_packet(buffer, tail, chunk, at) {
            Ok(WalkStep::InChunk(span)) => {
                sum = told(chunk, span.start, span.end, sum);
                at = span.end;
            }
            Ok(WalkStep::InBuffer(joined)) => {
                sum = told(buffer, 0, joined.length, sum);
                at = joined.at;
            }
            Ok(WalkStep::Tail(length)) => return (sum, length),
            Err(refusal) => return (refusal.number(), 0),
        }
        tail = 0;
    }
    (sum, tail)
}

// The sum with the length of a packet, its first byte, one in the middle and its last.
fn told(bytes: &[u8], start: usize, end: usize, sum: u64) -> u64 {
    if end <= start || bytes.len() < end {
        return sum;
    }
    let size = end - start;
    let first = u64::from(bytes[start]);
    let middle = u64::from(bytes[start + size / 2]);
    let last = u64::from(bytes[end - 1]);
    let seen = (first * 65_536 + middle * 256 + last) * 1_048_576;
    sum.wrapping_add(sum)
        .wrapping_add(sum)
        .wrapping_add(seen)
        .wrapping_add(size as u64)
}

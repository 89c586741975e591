// Reading the kernel text of a table: a small one, the largest that the rules accept, and one segment larger.
#![tactic(auto)]

ghost use Rattle.std.specs.Prelude.{◌≡◌, ◌≤◌, length};

use bench_report::{clock, line, mixed, next, often};
use rules::Layout;
use std::io;
use std::rt::{CpuClock, Env};

const MOST_TEXT: usize = 850_000;

const MOST_PARTITIONS: usize = 10000;

const MOST_SEGMENTS: usize = 10001;

const CLOCK: i64 = -77;

type Fields = [u64; Layout::MOST_FIELDS];

type Partitions = [u64; MOST_PARTITIONS];

type Segments = [u64; MOST_SEGMENTS];

type Times = [i64; MOST_SEGMENTS];

pub fn bench<R: Env + CpuClock + Print>(rt: &R, timed: bool) -> io::Result<()> {
    let mut text = text_room();
    let asked = often(timed, 20_000, 20);
    bench_table(rt, timed, b"read-kernel-100", 100, 99, asked, &mut text)?;
    let asked = often(timed, 200, 2);
    bench_table(
        rt,
        timed,
        b"read-kernel-10000",
        10_000,
        9_999,
        asked,
        &mut text,
    )?;
    bench_table(
        rt,
        timed,
        b"read-kernel-10001",
        10_001,
        9_999,
        asked,
        &mut text,
    )
}

fn text_room() -> [u8; MOST_TEXT]
    ensures { 850000 ≡ length result }
{
    [0; MOST_TEXT]
}

// A table with so many segments and partitions.
fn bench_table<R: Env + CpuClock + Print>(
    rt: &R,
    timed: bool,
    name: &[u8],
    segments: u64,
    partitions: u64,
    asked: u64,
    text: &mut [u8],
) -> io::Result<()>
    requires le_segments { (1 ≤ segments) × (segments ≤ 10001) }
    requires le_partitions { (1 ≤ partitions) × (partitions ≤ 9999) }
{
    let n = bench_text::fill(text, segments, partitions);
    let from = clock(rt);
    let sum = marks(&text[..n], segments, partitions, asked);
    line(rt, name, asked, sum, timed, from)
}

fn marks(text: &[u8], segments: u64, partitions: u64, asked: u64) -> u64
    requires { (1 ≤ segments) × (1 ≤ partitions) }
{
    let mut moduli = [0u64; Layout::MOST_FIELDS];
    let mut offsets = [0u64; Layout::MOST_FIELDS];
    let mut starts = [0u64; MOST_PARTITIONS];
    let mut ends = [0u64; MOST_PARTITIONS];
    let mut counts = [0u64; MOST_SEGMENTS];
    let mut times = [0i64; MOST_SEGMENTS];
    let mut rates = [0u64; MOST_SEGMENTS];
    let mut sum: u64 = 0;
    let mut x: u64 = 1;
    for _ in 0..asked {
        x = next(x);
        let segment = (x % segments) as usize;
        let partition = (x % partitions) as usize;
        let answer = mark(
            text,
            segment,
            partition,
            &mut moduli,
            &mut offsets,
            &mut starts,
            &mut ends,
            &mut counts,
            &mut times,
            &mut rates,
        );
        sum = mixed(sum, answer);
    }
    sum
}

// Reads the text, and answers a sum of the numbers of one segment and one partition.
fn mark(
    text: &[u8],
    segment: usize,
    partition: usize,
    moduli: &mut Fields,
    offsets: &mut Fields,
    starts: &mut Partitions,
    ends: &mut Partitions,
    counts: &mut Segments,
    times: &mut Times,
    rates: &mut Segments,
) -> u64 {
    match kernel::read_kernel(
        text, CLOCK, moduli, offsets, starts, ends, counts, times, rates,
    ) {
        Ok(kernel) => (kernel.n as u64 % 256 * 1_000_003)
            .wrapping_add(entry(starts, partition))
            .wrapping_add(entry(ends, partition))
            .wrapping_add(entry(counts, segment))
            .wrapping_add(entry(rates, segment))
            .wrapping_add(time_entry(times, segment)),
        Err(refusal) => refusal.number(),
    }
}

fn entry(list: &[u64], row: usize) -> u64 {
    list.get(row).copied().unwrap_or(0)
}

// The time's bits.
fn time_entry(times: &[i64], row: usize) -> u64 {
    times
        .get(row)
        .map_or(0, |time| u64::from_le_bytes(time.to_le_bytes()))
}

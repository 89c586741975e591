// Whether a newer table succeeds an older one, and where their horizon is. The newer table has as many rows as there may be.
#![tactic(auto)]

use bench_partitions::prepare;
use bench_report::{LAST, ask, layout, often};
use std::io;
use std::rt::{CpuClock, Env};
use succession_rules::{Succession, TableRefusal};

const PARTITIONS: usize = 9_999;

const SEGMENTS: usize = 10_000;

// The ticks of a segment.
const TICKS: u64 = LAST / 10_000;

// The rows of the older table where the newer one has more.
const OLDER_PARTITIONS: usize = 4_999;

const OLDER_SEGMENTS: usize = 5_000;

pub fn bench<R: Env + CpuClock + Print>(rt: &R, timed: bool) -> io::Result<()> {
    let mut starts = [0u64; PARTITIONS];
    let mut ends = [0u64; PARTITIONS];
    let mut counts = [0u64; SEGMENTS];
    let mut times = [0i64; SEGMENTS];
    let mut rates = [0u64; SEGMENTS];
    prepare(rt, &mut starts, &mut ends, &mut [], PARTITIONS);
    bench_rows::fill(&mut counts, &mut times, &mut rates, SEGMENTS, TICKS);
    bench_newer(rt, timed, &starts, &ends, &counts, &times, &rates)
}

// The older table has the first half of this newer one's rows, or it is a copy of it.
fn bench_newer<R: Env + CpuClock + Print>(
    rt: &R,
    timed: bool,
    starts: &[u64],
    ends: &[u64],
    counts: &[u64],
    times: &[i64],
    rates: &[u64],
) -> io::Result<()> {
    let mut older_starts = [0u64; PARTITIONS];
    let mut older_ends = [0u64; PARTITIONS];
    let mut older_counts = [0u64; SEGMENTS];
    let mut older_times = [0i64; SEGMENTS];
    let mut older_rates = [0u64; SEGMENTS];
    prepare(rt, &mut older_starts, &mut older_ends, &mut [], PARTITIONS);
    bench_rows::fill(
        &mut older_counts,
        &mut older_times,
        &mut older_rates,
        SEGMENTS,
        TICKS,
    );
    ask_both(
        rt,
        timed,
        &older_starts[0..OLDER_PARTITIONS],
        &older_ends[0..OLDER_PARTITIONS],
        &older_counts[0..OLDER_SEGMENTS],
        &older_times[0..OLDER_SEGMENTS],
        &older_rates[0..OLDER_SEGMENTS],
        starts,
        ends,
        counts,
        times,
        rates,
        b"succeeds-longer",
        b"horizon-longer",
    )?;
    ask_both(
        rt,
        timed,
        &older_starts,
        &older_ends,
        &older_counts,
        &older_times,
        &older_rates,
        starts,
        ends,
        counts,
        times,
        rates,
        b"succeeds-equal",
        b"horizon-equal",
    )
}

fn ask_both<R: Env + CpuClock + Print>(
    rt: &R,
    timed: bool,
    older_starts: &[u64],
    older_ends: &[u64],
    older_counts: &[u64],
    older_times: &[i64],
    older_rates: &[u64],
    starts: &[u64],
    ends: &[u64],
    counts: &[u64],
    times: &[i64],
    rates: &[u64],
    succeeds_name: &[u8],
    horizon_name: &[u8],
) -> io::Result<()> {
    let asked = often(timed, 5_000, 100);
    ask(
        rt,
        timed,
        succeeds_name,
        asked,
        |_| succeeded(succession::succeeds(
            layout(rt),
            older_starts,
            older_ends,
            older_counts,
            older_times,
            older_rates,
            layout(rt),
            starts,
            ends,
            counts,
            times,
            rates,
        )),
    )?;
    ask(
        rt,
        timed,
        horizon_name,
        asked,
        |_| succession::horizon(
            layout(rt),
            older_starts,
            older_ends,
            older_counts,
            older_times,
            older_rates,
            layout(rt),
            starts,
            ends,
            counts,
            times,
            rates,
        )
        .unwrap_or(0),
    )
}

fn succeeded(answer: Result<Succession, TableRefusal>) -> u64 {
    match answer {
        Ok(Ok(())) => 1,
        Ok(Err(failure)) => std::num::wrapping_add_u64(failure.row as u64, 2),
        Err(_) => 0,
    }
}

// The benchmark's questions, asked of the proved calls. Without an argument it asks few of each and prints their checksums; with
// one it asks many and prints nanoseconds a call behind each checksum. The reference has the same questions.
#![tactic(auto)]

use bench_report::{is_timed, often};
use std::io;
use std::rt::{CpuClock, Env};

const MOST_ROWS: usize = 10000;

fn main(rt: HostRuntime) -> io::Result<()> {
    let timed = is_timed(&rt);
    let mut messages = [0u8; 4096];
    bench_stamps::fill(&rt, &mut messages);
    bench_stamps::bench(&rt, timed, &messages)?;
    bench_raw::bench(&rt, timed)?;
    bench_quotient::bench(&rt, timed)?;
    bench_tables(&rt, timed, &messages)?;
    bench_kernel::bench(&rt, timed)
}

// The calls on times under one segment, under a hundred and under as many as there may be.
fn bench_tables<R: Env + CpuClock + Print>(rt: &R, timed: bool, messages: &[u8]) -> io::Result<()> {
    let mut counts = [0u64; MOST_ROWS];
    let mut times = [0i64; MOST_ROWS];
    let mut rates = [0u64; MOST_ROWS];
    bench_rows::bench(
        rt,
        timed,
        &mut counts,
        &mut times,
        &mut rates,
        1,
        often(timed, 5_000_000, 100),
        b"time-of-1",
        b"count-at-1",
    )?;
    bench_rows::bench_seconds(rt, timed, often(timed, 5_000_000, 100))?;
    bench_rows::bench(
        rt,
        timed,
        &mut counts,
        &mut times,
        &mut rates,
        100,
        often(timed, 1_000_000, 100),
        b"time-of-100",
        b"count-at-100",
    )?;
    bench_times::bench(
        rt,
        timed,
        messages,
        &counts[0..100],
        &times[0..100],
        &rates[0..100],
        often(timed, 1_000_000, 100),
    )?;
    let asked = often(timed, 10_000, 100);
    bench_rows::bench(
        rt,
        timed,
        &mut counts,
        &mut times,
        &mut rates,
        MOST_ROWS,
        asked,
        b"time-of-10000",
        b"count-at-10000",
    )?;
    bench_rows::bench_steps(rt, timed, &counts, &times, &rates, asked)
}

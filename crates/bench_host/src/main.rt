// The C calls' questions, each asked of the inner call too. Without an argument it asks few of each and prints their checksums;
// with one it asks many and prints nanoseconds a call behind each checksum. The reference has the same questions.
#![tactic(auto)]

ghost use Rattle.std.specs.Prelude.{◌≤◌, ◌<◌, length};

use bench_report::{is_timed, often};
use std::io;
use std::rt::{CpuClock, Env};

const MOST_ROWS: usize = 10000;

fn main(rt: HostRuntime) -> io::Result<()> {
    let timed = is_timed(&rt);
    bench_c::bench(&rt, timed)?;
    let mut counts = [0u64; MOST_ROWS];
    let mut times = [0i64; MOST_ROWS];
    let mut rates = [0u64; MOST_ROWS];
    bench_times(
        &rt,
        timed,
        &mut counts,
        &mut times,
        &mut rates,
        1,
        often(timed, 5_000_000, 100),
        b"table-time-of-1",
        b"table-count-at-1",
    )?;
    bench_times(
        &rt,
        timed,
        &mut counts,
        &mut times,
        &mut rates,
        100,
        often(timed, 1_000_000, 100),
        b"table-time-of-100",
        b"table-count-at-100",
    )?;
    bench_times(
        &rt,
        timed,
        &mut counts,
        &mut times,
        &mut rates,
        MOST_ROWS,
        often(timed, 10_000, 100),
        b"table-time-of-10000",
        b"table-count-at-10000",
    )
}

// The inner calls, then the C calls, under the first `rows` of each list. `bench` has the inner lines too, by plain names.
fn bench_times<R: Env + CpuClock + Print>(
    rt: &R,
    timed: bool,
    counts: &mut [u64],
    times: &mut [i64],
    rates: &mut [u64],
    rows: usize,
    asked: u64,
    time_name: &[u8],
    count_name: &[u8],
) -> io::Result<()>
    requires le_rows { (1 ≤ rows) × (rows < 10001) }
    requires rows_in_bounds { (rows ≤ length counts.old) × (rows ≤ length times.old) × (rows ≤ length rates.old) }
{
    bench_rows::bench(
        rt, timed, counts, times, rates, rows, asked, time_name, count_name,
    )?;
    bench_c_times::bench(
        rt,
        timed,
        &counts[0..rows],
        &times[0..rows],
        &rates[0..rows],
        asked,
    )
}

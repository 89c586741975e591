// Count to time and time to count by the C calls, under one partition.
#![tactic(auto)]

ghost use Rattle.std.specs.Prelude.{◌<◌};

use bench_bytes::{
    FIELDS, fields, first, put_moduli, put_numbers, put_offsets, put_times, returned,
};
use bench_report::{LAST, ask_table, latest, layout, scaled};
use std::io;
use std::rt::{CpuClock, Env};

// The bytes of the longest list.
const MOST_BYTES: usize = 80_000;

// The questions that `bench_rows` asks under the same segments.
pub fn bench<R: Env + CpuClock + Print>(
    rt: &R,
    timed: bool,
    counts: &[u64],
    times: &[i64],
    rates: &[u64],
    asked: u64,
) -> io::Result<()> {
    let mut count_list = [0u8; MOST_BYTES];
    let mut time_list = [0u8; MOST_BYTES];
    let mut rate_list = [0u8; MOST_BYTES];
    put_numbers(&mut count_list, counts);
    put_times(&mut time_list, times);
    put_numbers(&mut rate_list, rates);
    let rows = counts.len();
    ask_both(
        rt,
        timed,
        first(&count_list, rows),
        first(&time_list, rows),
        first(&rate_list, rows),
        rows as u64,
        counts.last().copied().unwrap_or(0),
        asked,
    )
}

fn ask_both<R: Env + CpuClock + Print>(
    rt: &R,
    timed: bool,
    counts: &[u8],
    times: &[u8],
    rates: &[u8],
    rows: u64,
    last: u64,
    asked: u64,
) -> io::Result<()> {
    let mut moduli = [0u8; FIELDS];
    let mut offsets = [0u8; FIELDS];
    let mut starts = [0u8; 8];
    let mut ends = [0u8; 8];
    put_moduli(rt, &mut moduli);
    put_offsets(rt, &mut offsets);
    put_numbers(&mut starts, &[0]);
    put_numbers(&mut ends, &[LAST]);
    ask_table(
        rt,
        timed,
        b"c-time-of",
        rows,
        asked,
        |x|
            requires { x < 2147483648 }
        {
            time_of(
                rt,
                fields(rt, &moduli),
                fields(rt, &offsets),
                &starts,
                &ends,
                counts,
                times,
                rates,
                scaled(x, LAST),
            )
        },
    )?;
    let most = latest(last);
    ask_table(
        rt,
        timed,
        b"c-count-at",
        rows,
        asked,
        |x|
            requires { (x < 2147483648) × (most < 1000000000000) }
        {
            count_at(
                rt,
                fields(rt, &moduli),
                fields(rt, &offsets),
                &starts,
                &ends,
                counts,
                times,
                rates,
                scaled(x, most) as i64,
            )
        },
    )
}

fn time_of<R: Env>(
    rt: &R,
    moduli: &[u8],
    offsets: &[u8],
    starts: &[u8],
    ends: &[u8],
    counts: &[u8],
    times: &[u8],
    rates: &[u8],
    encoded: u64,
) -> u64 {
    let layout = layout(rt);
    let mut time = [0u8; 8];
    let answer = sclk_c::sclk_time_of(
        layout.n as u64,
        u64::from(layout.delimiter),
        moduli,
        offsets,
        starts,
        ends,
        counts,
        times,
        rates,
        encoded,
        &mut time,
    );
    if answer != 0 {
        return 0;
    }
    signed::ordinal(i64::from_le_bytes(time))
}

fn count_at<R: Env>(
    rt: &R,
    moduli: &[u8],
    offsets: &[u8],
    starts: &[u8],
    ends: &[u8],
    counts: &[u8],
    times: &[u8],
    rates: &[u8],
    at: i64,
) -> u64 {
    let layout = layout(rt);
    returned(sclk_c::sclk_count_at(
        layout.n as u64,
        u64::from(layout.delimiter),
        moduli,
        offsets,
        starts,
        ends,
        counts,
        times,
        rates,
        at,
    ))
}

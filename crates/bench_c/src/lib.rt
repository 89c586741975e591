// The C calls beside the inner calls: the same questions under the same tables, in bytes.
#![tactic(auto)]

ghost use Rattle.std.specs.Prelude.{◌≤◌, ◌<◌, length};

use bench_bytes::{FIELDS, fields, first, put_moduli, put_numbers, put_offsets, returned};
use bench_partitions::{prepare, slots, total};
use bench_report::{LAST, ask, ask_table, layout, often, scaled};
use bench_stamps::mark;
use std::io;
use std::rt::{CpuClock, Env};

const MOST_ROWS: usize = 9_999;

// The bytes of the longest list.
const MOST_BYTES: usize = 79_992;

// Text and counts, then stamps and messages under more and more partitions.
pub fn bench<R: Env + CpuClock + Print>(rt: &R, timed: bool) -> io::Result<()> {
    let mut moduli = [0u8; FIELDS];
    let mut offsets = [0u8; FIELDS];
    put_moduli(rt, &mut moduli);
    put_offsets(rt, &mut offsets);
    bench_all(rt, timed, &moduli, &offsets)
}

fn bench_all<R: Env + CpuClock + Print>(
    rt: &R,
    timed: bool,
    moduli: &[u8],
    offsets: &[u8],
) -> io::Result<()> {
    let mut starts = [0u64; MOST_ROWS];
    let mut ends = [0u64; MOST_ROWS];
    let mut slots = [0u8; slots::ALL];
    prepare(rt, &mut starts, &mut ends, &mut slots, 1);
    let asked = often(timed, 5_000_000, 1_000);
    bench_texts(rt, timed, moduli, offsets, &slots, asked)?;
    bench_rows(
        rt,
        timed,
        moduli,
        offsets,
        &mut starts,
        &mut ends,
        &mut slots,
        1,
        asked,
    )?;
    let asked = often(timed, 1_000_000, 100);
    bench_rows(
        rt,
        timed,
        moduli,
        offsets,
        &mut starts,
        &mut ends,
        &mut slots,
        100,
        asked,
    )?;
    let asked = often(timed, 10_000, 100);
    bench_rows(
        rt,
        timed,
        moduli,
        offsets,
        &mut starts,
        &mut ends,
        &mut slots,
        MOST_ROWS,
        asked,
    )
}

fn bench_texts<R: Env + CpuClock + Print>(
    rt: &R,
    timed: bool,
    moduli: &[u8],
    offsets: &[u8],
    slots: &[u8],
    asked: u64,
) -> io::Result<()> {
    ask(
        rt,
        timed,
        b"read-text",
        asked,
        |x| bench_partitions::read_text(rt, slots, x),
    )?;
    ask(
        rt,
        timed,
        b"c-read-text",
        asked,
        |x| read_text(rt, fields(rt, moduli), fields(rt, offsets), slots, x),
    )?;
    ask(
        rt,
        timed,
        b"print-count",
        asked,
        |x|
            requires { x < 2147483648 }
        { bench_partitions::print_count(rt, scaled(x, LAST)) },
    )?;
    ask(
        rt,
        timed,
        b"c-print-count",
        asked,
        |x|
            requires { x < 2147483648 }
        { print_count(rt, fields(rt, moduli), fields(rt, offsets), scaled(x, LAST)) },
    )
}

// The first `rows` of the lists become partitions, and the slots their messages.
fn bench_rows<R: Env + CpuClock + Print>(
    rt: &R,
    timed: bool,
    moduli: &[u8],
    offsets: &[u8],
    starts: &mut [u64],
    ends: &mut [u64],
    slots: &mut [u8],
    rows: usize,
    asked: u64,
) -> io::Result<()>
    requires le_rows { (1 ≤ rows) × (rows < 10000) }
    requires rows_in_bounds { (rows ≤ length starts.old) × (rows ≤ length ends.old) }
{
    prepare(rt, starts, ends, slots, rows);
    bench_partitions::bench(
        rt,
        timed,
        &starts[0..rows],
        &ends[0..rows],
        slots,
        rows as u64,
        asked,
    )?;
    ask_bytes(
        rt,
        timed,
        moduli,
        offsets,
        &starts[0..rows],
        &ends[0..rows],
        slots,
        rows as u64,
        asked,
    )
}

// The C calls under the same partitions, in bytes.
fn ask_bytes<R: Env + CpuClock + Print>(
    rt: &R,
    timed: bool,
    moduli: &[u8],
    offsets: &[u8],
    starts: &[u64],
    ends: &[u64],
    slots: &[u8],
    rows: u64,
    asked: u64,
) -> io::Result<()>
    requires { (1 ≤ rows) × (rows < 10000) }
{
    let mut start_list = [0u8; MOST_BYTES];
    let mut end_list = [0u8; MOST_BYTES];
    put_numbers(&mut start_list, starts);
    put_numbers(&mut end_list, ends);
    ask_each(
        rt,
        timed,
        moduli,
        offsets,
        first(&start_list, starts.len()),
        first(&end_list, ends.len()),
        slots,
        rows,
        asked,
    )
}

fn ask_each<R: Env + CpuClock + Print>(
    rt: &R,
    timed: bool,
    moduli: &[u8],
    offsets: &[u8],
    starts: &[u8],
    ends: &[u8],
    slots: &[u8],
    rows: u64,
    asked: u64,
) -> io::Result<()>
    requires { (1 ≤ rows) × (rows < 10000) }
{
    let total = total(rows);
    ask_table(rt, timed, b"c-read-stamp", rows, asked, |x| {
        let bytes = slots::stamp(slots, slots::at(x));
        read_stamp(
            rt,
            fields(rt, moduli),
            fields(rt, offsets),
            starts,
            ends,
            bytes,
        )
    })?;
    ask_table(rt, timed, b"c-read-message", rows, asked, |x| {
        let bytes = slots::message(slots, slots::at(x));
        read_message(
            rt,
            fields(rt, moduli),
            fields(rt, offsets),
            starts,
            ends,
            bytes,
        )
    })?;
    ask_table(
        rt,
        timed,
        b"c-print-stamp",
        rows,
        asked,
        |x|
            requires { (x < 2147483648) × (total < 1000000000000) }
        {
            let encoded = scaled(x, total);
            print_stamp(
                rt,
                fields(rt, moduli),
                fields(rt, offsets),
                starts,
                ends,
                encoded,
            )
        },
    )
}

fn read_text<R: Env>(rt: &R, moduli: &[u8], offsets: &[u8], slots: &[u8], x: u64) -> u64 {
    let layout = layout(rt);
    returned(sclk_c::sclk_read_text(
        layout.n as u64,
        u64::from(layout.delimiter),
        moduli,
        offsets,
        slots::text(slots, slots::at(x)),
    ))
}

fn read_stamp<R: Env>(
    rt: &R,
    moduli: &[u8],
    offsets: &[u8],
    starts: &[u8],
    ends: &[u8],
    bytes: &[u8],
) -> u64 {
    let layout = layout(rt);
    returned(sclk_c::sclk_read_stamp(
        layout.n as u64,
        u64::from(layout.delimiter),
        moduli,
        offsets,
        starts,
        ends,
        bytes,
    ))
}

fn read_message<R: Env>(
    rt: &R,
    moduli: &[u8],
    offsets: &[u8],
    starts: &[u8],
    ends: &[u8],
    bytes: &[u8],
) -> u64 {
    let layout = layout(rt);
    returned(sclk_c::sclk_read_message(
        layout.n as u64,
        u64::from(layout.delimiter),
        moduli,
        offsets,
        starts,
        ends,
        bytes,
    ))
}

fn print_count<R: Env>(rt: &R, moduli: &[u8], offsets: &[u8], count: u64) -> u64 {
    let layout = layout(rt);
    let mut buffer = [0u8; 32];
    let length = sclk_c::sclk_print_count(
        layout.n as u64,
        u64::from(layout.delimiter),
        moduli,
        offsets,
        count,
        &mut buffer,
    );
    mark(returned(length) as usize, &buffer)
}

fn print_stamp<R: Env>(
    rt: &R,
    moduli: &[u8],
    offsets: &[u8],
    starts: &[u8],
    ends: &[u8],
    encoded: u64,
) -> u64 {
    let layout = layout(rt);
    let mut buffer = [0u8; 32];
    let length = sclk_c::sclk_print_stamp(
        layout.n as u64,
        u64::from(layout.delimiter),
        moduli,
        offsets,
        starts,
        ends,
        encoded,
        &mut buffer,
    );
    mark(returned(length) as usize, &buffer)
}

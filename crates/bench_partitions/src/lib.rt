// Clock text and counts; stamps and messages under as many partitions as the name says.
#![tactic(auto)]

ghost use Rattle.std.specs.Prelude.{◌*◌, ◌≤◌, ◌<◌, length};

use bench_report::{LAST, ask_table, layout, scaled, told};
use bench_stamps::mark;
use rules::{Reading, Refusal};
use std::io;
use std::rt::{CpuClock, Env};

pub mod slots;

// Stamps and messages under these partitions.
pub fn bench<R: Env + CpuClock + Print>(
    rt: &R,
    timed: bool,
    starts: &[u64],
    ends: &[u64],
    slots: &[u8],
    rows: u64,
    asked: u64,
) -> io::Result<()>
    requires { (1 ≤ rows) × (rows < 10000) }
{
    ask_table(
        rt,
        timed,
        b"read-stamp",
        rows,
        asked,
        |x|
            requires { x < 2147483648 }
        {
            let bytes = slots::stamp(slots, slots::at(x));
            read(text::read_stamp(layout(rt), starts, ends, bytes))
        },
    )?;
    ask_table(
        rt,
        timed,
        b"read-message",
        rows,
        asked,
        |x|
            requires { x < 2147483648 }
        {
            let bytes = slots::message(slots, slots::at(x));
            read(message::read_message(layout(rt), starts, ends, bytes))
        },
    )?;
    let total = total(rows);
    ask_table(
        rt,
        timed,
        b"print-stamp",
        rows,
        asked,
        |x|
            requires { (x < 2147483648) × (total < 1000000000000) }
        { print_stamp(rt, starts, ends, scaled(x, total)) },
    )
}

// The first `rows` of the lists become partitions, and the slots their messages.
pub fn prepare<R: Env>(rt: &R, starts: &mut [u64], ends: &mut [u64], slots: &mut [u8], rows: usize)
    requires le_rows { (1 ≤ rows) × (rows < 10000) }
    requires rows_in_bounds { (rows ≤ length starts.old) × (rows ≤ length ends.old) }
{
    fill(starts, ends, rows, ticks(rows as u64));
    slots::fill(
        rt,
        slots,
        &starts[0..rows],
        &ends[0..rows],
        total(rows as u64),
    );
}

// The ticks of each of so many partitions.
fn ticks(rows: u64) -> u64
    requires { (1 ≤ rows) × (rows < 10000) }
    ensures { (result < 4294967295) × (result * rows ≤ 3145727999) }
{
    (LAST - rows) / rows
}

// The ticks of all of them.
pub fn total(rows: u64) -> u64
    requires { (1 ≤ rows) × (rows < 10000) }
    ensures { result < 1000000000000 }
{
    ticks(rows) * rows
}

// The first `rows` of the lists become partitions of so many ticks; one tick is left out before the next.
fn fill(starts: &mut [u64], ends: &mut [u64], rows: usize, ticks: u64)
    requires rows_bound { (rows < 10000) × (ticks < 4294967295) }
    requires rows_in_bounds { (rows ≤ length starts.old) × (rows ≤ length ends.old) }
{
    let mut start: u64 = 0;
    for i in 0..rows {
        starts[i] = start;
        ends[i] = start + ticks;
        start += ticks + 1;
    }
}

// The text of the slot that a question picks.
pub fn read_text<R: Env>(rt: &R, slots: &[u8], x: u64) -> u64 {
    read(text::read_text(layout(rt), slots::text(slots, slots::at(x))))
}

fn read(answer: Result<Reading, Refusal>) -> u64 {
    told(answer, |reading| reading.count)
}

pub fn print_count<R: Env>(rt: &R, count: u64) -> u64 {
    let mut buffer = [0u8; 32];
    let printed = print::print_count(layout(rt), count, &mut buffer);
    mark(printed.unwrap_or(0), &buffer)
}

fn print_stamp<R: Env>(rt: &R, starts: &[u64], ends: &[u64], encoded: u64) -> u64 {
    let mut buffer = [0u8; 32];
    let printed = print::print_stamp(layout(rt), starts, ends, encoded, &mut buffer);
    mark(printed.unwrap_or(0), &buffer)
}

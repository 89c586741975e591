// A stamp, and a message, to its count and time under one partition.
#![tactic(auto)]

ghost use Rattle.std.specs.Prelude.{◌<◌};

use bench_report::{LAST, ask, layout, told};
use bench_stamps::{MESSAGE, TEXT, question};
use rules::{Refusal, TimedStamp};
use stamp_time::{time_of_message, time_of_stamp};
use std::io;
use std::rt::{CpuClock, Env};

pub fn bench<R: Env + CpuClock + Print>(
    rt: &R,
    timed: bool,
    messages: &[u8],
    counts: &[u64],
    times: &[i64],
    rates: &[u64],
    asked: u64,
) -> io::Result<()> {
    ask(
        rt,
        timed,
        b"stamp-time-100",
        asked,
        |x|
            requires { x < 2147483648 }
        {
            let bytes = question(messages, x, TEXT);
            mark(time_of_stamp(layout(rt), &[0], &[LAST], counts, times, rates, bytes))
        },
    )?;
    ask(
        rt,
        timed,
        b"message-time-100",
        asked,
        |x|
            requires { x < 2147483648 }
        {
            let bytes = question(messages, x, MESSAGE);
            mark(time_of_message(layout(rt), &[0], &[LAST], counts, times, rates, bytes))
        },
    )
}

fn mark(answer: Result<TimedStamp, Refusal>) -> u64 {
    told(answer, |stamp| stamp.count ^ signed::ordinal(stamp.time))
}

// The questions about packets and dumps of them. Without an argument it asks few of each and prints their checksums; with one it
// asks many and prints nanoseconds a call behind each checksum. The reference has the same questions.
#![tactic(auto)]

use bench_report::is_timed;
use std::io;

fn main(rt: HostRuntime) -> io::Result<()> {
    let timed = is_timed(&rt);
    bench_packets::bench(&rt, timed)?;
    bench_walk::bench(&rt, timed)
}

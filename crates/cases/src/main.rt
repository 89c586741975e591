// Runs the second implementation's samples, or any script.
#![tactic(auto)]

use std::io;

fn main(rt: HostRuntime) -> io::Result<()> {
    runner::run(&mut rt.stdin(), &mut rt.stdout())
}

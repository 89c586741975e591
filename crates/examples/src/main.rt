// Runs the examples of document 01 and of the requests: the script and its answers are typed from the documents.
#![tactic(auto)]

use std::io;

fn main(rt: HostRuntime) -> io::Result<()> {
    runner::run(&mut rt.stdin(), &mut rt.stdout())
}

// The operator's command, run for a description of a kernel.
#![tactic(auto)]

// The status is left: the run is judged by what it prints.
fn main(rt: HostRuntime) {
    let _ = command::run(rt);
}

// The types that the definitions of raw counters name.
#![tactic(auto)]

use rules::Refusal;

// What is kept of a satellite that sends its tick counter: the last raw number, the encoded count that it stands for, and
// whether a reset was accepted. Before one the two numbers stand for nothing.
#[derive(Clone, Copy, Debug, PartialEq, Eq)]
pub struct RawCounter {
    pub started: bool,
    pub raw: u32,
    pub count: u64,
}

// What a call on a raw counter gives: its answer, and the counter afterwards.
#[derive(Clone, Copy, Debug, PartialEq, Eq)]
pub struct RawStep {
    pub answer: Result<u64, Refusal>,
    pub next: RawCounter,
}

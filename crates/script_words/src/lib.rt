// The words of a script's line: numbers and bytes.
#![tactic(auto)]

pub mod hex;
pub mod numbers;

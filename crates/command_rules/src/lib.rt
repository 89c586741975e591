// The types that the definitions of the operator's command name.
#![tactic(auto)]

// What is asked of each line of input.
#[derive(Clone, Copy, Debug, PartialEq, Eq)]
pub enum Query {
    // A stamp: its encoded count and time.
    Time,
    // The same of a message in hex.
    Messages,
    // An encoded count: its stamp.
    Stamp,
    // A time: its encoded count.
    Count,
    // A stamp under two tables.
    Compare,
    // The same of a message in hex.
    CompareMessages,
}

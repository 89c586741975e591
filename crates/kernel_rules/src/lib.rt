// The types that the definitions of kernel text name.
#![tactic(auto)]

// Bytes of a data line.
pub const LONGEST_LINE: usize = 132;

// Where a line of a kernel text ends.
#[derive(Clone, Copy, Debug, PartialEq, Eq)]
pub enum Stage {
    // Outside data blocks.
    Comment,
    // In a data block, between assignments.
    Data,
    // In a list that has no value yet.
    Opened,
    // In a list of numbers and dates.
    Numbers,
    // In a list of strings.
    Strings,
    // After a line that the form forbids.
    Forbidden,
}

// What follows an opening quote: its bytes up to the closing quote and with it, its characters, and whether it is closed.
#[derive(Clone, Copy, Debug, PartialEq, Eq)]
pub struct Quoted {
    pub width: usize,
    pub chars: usize,
    pub closed: bool,
}

// A value in whole units: no number, one that is not exact in 64 bits, or a sign and the number.
#[derive(Clone, Copy, Debug, PartialEq, Eq)]
pub enum Number {
    Malformed,
    Inexact,
    Plus(u64),
    Minus(u64),
}

// What reading a kernel gives beside the lists.
#[derive(Clone, Copy, Debug, PartialEq, Eq)]
pub struct Kernel {
    pub n: usize,
    pub delimiter: u8,
    pub system: u8,
    pub partitions: usize,
    pub segments: usize,
}

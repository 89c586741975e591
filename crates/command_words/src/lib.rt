// What one word of the command line is.
#![tactic(auto)]

ghost use Rattle.std.specs.Prelude.{◌≡◌};
ghost use Rattle.command_words.specs.Words.{first_of, option_of, later_of};

use kernel_lines::line_bytes::same;

pub mod clock;

#[derive(Clone, Copy)]
pub enum Command {
    Time,
    Stamp,
    Count,
    Describe,
    Compare,
}

// The first word behind the program's name.
#[derive(Clone, Copy)]
pub enum First {
    Command(Command),
    Help,
    Other,
}

// A word behind the command. Unknown is an option that no command has, and a word that is too long.
#[derive(Clone, Copy)]
pub enum Later {
    Hex,
    Seconds,
    Help,
    Unknown,
    Plain,
}

// Bytes of a word.
const LONGEST_WORD: usize = 4_095;

#[tactic(auto, unfolding(crate::specs::Words::first_of, rules::specs::Examples::bytes))]
pub fn first_of(w: &[u8]) -> First
    ensures { result ≡ first_of w.now }
{
    if same(w, b"time") {
        return First::Command(Command::Time);
    }
    if same(w, b"stamp") {
        return First::Command(Command::Stamp);
    }
    if same(w, b"count") {
        return First::Command(Command::Count);
    }
    if same(w, b"describe") {
        return First::Command(Command::Describe);
    }
    if same(w, b"compare") {
        return First::Command(Command::Compare);
    }
    if same(w, b"--help") {
        return First::Help;
    }
    First::Other
}

#[tactic(auto, using(crate::proofs::Options::two_dashes), unfolding(crate::specs::Words::later_of))]
pub fn later_of(w: &[u8]) -> Later
    ensures { result ≡ later_of w.now }
{
    if LONGEST_WORD < w.len() {
        return Later::Unknown;
    }
    if w.starts_with(b"--") {
        return option_of(w);
    }
    Later::Plain
}

#[tactic(auto, unfolding(crate::specs::Words::option_of, rules::specs::Examples::bytes))]
fn option_of(w: &[u8]) -> Later
    ensures { result ≡ option_of w.now }
{
    if same(w, b"--hex") {
        return Later::Hex;
    }
    if same(w, b"--seconds") {
        return Later::Seconds;
    }
    if same(w, b"--help") {
        return Later::Help;
    }
    Later::Unknown
}

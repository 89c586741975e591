// The sentence of a refusal, and a refusal as the fields of a line, put into a buffer at `at`. Each function answers the place after what it put.
#![tactic(auto)]

ghost use Rattle.std.specs.Prelude.{◌≡◌, [], ◌∷◌, ◌++◌, ◌+◌, ◌≤◌, ◌<◌, length};
ghost use Rattle.decimal.specs.Writing.{Written};
ghost use Rattle.rules.specs.Answer.{as_numbered};
ghost use Rattle.command_rules.specs.Sentences.{sentence};
ghost use Rattle.command_rules.specs.Fields.{place_text, refusal_text};
ghost use Rattle.refusal_text.specs.Longest.{longest_sentence, longest_refusal};

use number_text::{put_byte, put_bytes, put_number};
use rules::Refusal;

const TAB: u8 = b'\t';

// A refusal's number, its place or `-`, its sentence, and one byte after them.
pub fn put_refusal(out: &mut [u8], at: usize, refusal: Refusal, after: u8) -> usize
    requires { at + longest_refusal ≤ length out.old }
    ensures written { Written (refusal_text (as_numbered refusal) ++ (after ∷ [])) result at out.old out.new }
    ensures upper_bound { result ≤ at + longest_refusal }
{
    let number = refusal.number();
    let numbered = put_number(out, at, number, TAB);
    let placed = put_place(out, numbered, refusal.place());
    let end = put_bytes(out, placed, sentence(number));
    put_byte(out, end, after)
}

// A place, or `-` where there is none, and a tab.
#[tactic(auto, unfolding(command_rules::specs::Fields::place_text))]
fn put_place(out: &mut [u8], at: usize, place: Option<usize>) -> usize
    requires { at + 21 ≤ length out.old }
    ensures written { Written (place_text place ++ (9 ∷ [])) result at out.old out.new }
    ensures upper_bound { result ≤ at + 21 }
{
    match place {
        None => put_bytes(out, at, b"-\t"),
        Some(i) => put_number(out, at, i as u64, TAB),
    }
}

// The sentence of a refusal's number.
fn sentence(number: u64) -> &'static [u8]
    ensures value { result.now ≡ sentence number }
    ensures upper_bound { length result.now ≤ longest_sentence }
{
    match number {
        1 => b"the layout breaks its rules",
        2 => b"the partitions break their rules",
        3 => b"the segments break their rules",
        4 => b"the text is too long",
        5 => b"a byte that is not allowed",
        6 => b"the first field is missing",
        7 => b"too many fields",
        8 => b"a field below its offset",
        9 => b"a number that is too large",
        10 => b"no such partition",
        11 => b"the count is in no such partition",
        12 => b"the encoded count is above the total",
        13 => b"before the first segment",
        14 => b"the time or its count is out of range",
        16 => b"too little room",
        18 => b"the first line is not KPL/SCLK",
        19 => b"the text is not of a kernel's form",
        20 => b"a number that is not exact in its unit",
        21 => b"a message under two bytes",
        22 => b"a message without a text",
        23 => b"a message shorter than the text it claims",
        _ => b"refused",
    }
}

// Clock text to its count, and a stamp to its encoded count.
#![tactic(auto)]

ghost use Rattle.std.specs.Prelude.{◌≡◌, ◌≤◌, length, take};
ghost use Rattle.rules.specs.Answer.{and_then, answer_as, answer_of};
ghost use Rattle.rules.specs.Partitions.{partitions};
ghost use Rattle.rules.specs.Text.{parse_text, read_text};
ghost use Rattle.rules.specs.Stamp.{parse_stamp, encode, read_stamp};
ghost use Rattle.encode.specs.Listed.{Listed};
ghost use Rattle.parse.specs.ParsedStamp.{parsed, capped};

use encode::{encode_first, encode_named};
use layouts::measure;
use parse::{ParsedStamp, parse_stamp, parse_text};
use rules::{Layout, Reading, Refusal};
use tables::accept_stamps;

// Text without a partition.
pub fn read_text(layout: Layout, text: &[u8]) -> Result<Reading, Refusal>
    ensures { answer_of result ≡ read_text layout text.now }
{
    let n = layout.n;
    measure(layout)?;
    text_in(&layout.moduli, &layout.offsets, n, text)
}

// Text under a layout whose fields are the first `n` slots.
fn text_in<'a>(
    moduli: &'a [u64],
    offsets: &'a [u64],
    n: usize,
    text: &[u8],
) -> Result<Reading, Refusal>
    requires { (1 ≤ n) × (n ≤ length moduli.now) × (n ≤ length offsets.now) }
    ensures { answer_of result ≡ parse_text (take n moduli.now) (take n offsets.now) text.now }
{
    parse_text(&moduli[..n], &offsets[..n], text)
}

// Text with a partition in front or without one.
pub fn read_stamp(
    layout: Layout,
    starts: &[u64],
    ends: &[u64],
    text: &[u8],
) -> Result<Reading, Refusal>
    ensures { answer_of result ≡ read_stamp layout (partitions starts.now ends.now) text.now }
{
    let n = layout.n;
    accept_stamps(measure(layout), starts, ends)?;
    stamp_in(&layout.moduli, &layout.offsets, n, starts, ends, text)
}

// A stamp under a layout whose fields are the first `n` slots, and partitions that are accepted.
pub fn stamp_in<'a>(
    moduli: &'a [u64],
    offsets: &'a [u64],
    n: usize,
    starts: &[u64],
    ends: &[u64],
    text: &[u8],
) -> Result<Reading, Refusal>
    requires le_n { (1 ≤ n) × (n ≤ length moduli.now) × (n ≤ length offsets.now) }
    requires listed { Listed (partitions starts.now ends.now) }
    ensures { answer_of result ≡ and_then (parse_stamp (take n moduli.now) (take n offsets.now) text.now) (encode (partitions starts.now ends.now)) }
{
    encode_parsed(starts, ends, parsed_in(moduli, offsets, n, text)?)
}

// A stamp as it is written, under a layout whose fields are the first `n` slots.
pub fn parsed_in<'a>(
    moduli: &'a [u64],
    offsets: &'a [u64],
    n: usize,
    text: &[u8],
) -> Result<ParsedStamp, Refusal>
    requires { (1 ≤ n) × (n ≤ length moduli.now) × (n ≤ length offsets.now) }
    ensures { answer_as parsed result ≡ capped (parse_stamp (take n moduli.now) (take n offsets.now) text.now) }
{
    parse_stamp(&moduli[..n], &offsets[..n], text)
}

// In the partition named, or in the first that holds the count.
#[tactic(auto, unfolding(rules::specs::Stamp::encode, rules::specs::Answer::and_then))]
fn encode_parsed(starts: &[u64], ends: &[u64], stamp: ParsedStamp) -> Result<Reading, Refusal>
    requires { Listed (partitions starts.now ends.now) }
    ensures { answer_of result ≡ encode (partitions starts.now ends.now) (parsed stamp) }
{
    let count = match stamp {
        ParsedStamp::Named(number, c) => encode_named(starts, ends, number, c.count)?,
        ParsedStamp::Unnamed(c) => encode_first(starts, ends, c.count)?,
    };
    Ok(Reading { count })
}

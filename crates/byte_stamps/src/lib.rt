// Stamps and messages under partitions that lie in bytes: reading and printing. Text is parsed, and a stamp printed, by the
// functions that lists of numbers use; only the loops that fetch a partition are here.
#![tactic(auto)]

ghost use Rattle.std.specs.Prelude.{◌≡◌, length};
ghost use Rattle.rules.specs.Answer.{and_then, answer_of};
ghost use Rattle.rules.specs.Stamp.{encode, read_stamp};
ghost use Rattle.rules.specs.Message.{read_message};
ghost use Rattle.rules.specs.Print.{print_stamp, length_printed, buffer_after};
ghost use Rattle.encode.specs.Listed.{Listed};
ghost use Rattle.parse.specs.ParsedStamp.{parsed};
ghost use Rattle.c_rules.specs.Tables.{partitions_from};

use crate::partition::{decode, encode_first, encode_named};
use byte_tables::accept_stamps;
use layouts::measure;
use message::{text_part, text_start};
use parse::ParsedStamp;
use print::stamp_at;
use rules::{Layout, Reading, Refusal};
use text::parsed_in;

pub mod partition;

// Text with a partition in front or without one.
pub fn read_stamp(
    layout: Layout,
    starts: &[u8],
    ends: &[u8],
    text: &[u8],
) -> Result<Reading, Refusal>
    ensures { answer_of result ≡ read_stamp layout (partitions_from starts.now ends.now) text.now }
{
    accept_stamps(measure(layout), starts, ends)?;
    let stamp = parsed_in(&layout.moduli, &layout.offsets, layout.n, text)?;
    encode_parsed(starts, ends, stamp)
}

// A message to its stamp's encoded count.
pub fn read_message(
    layout: Layout,
    starts: &[u8],
    ends: &[u8],
    message: &[u8],
) -> Result<Reading, Refusal>
    ensures { answer_of result ≡ read_message layout (partitions_from starts.now ends.now) message.now }
{
    let start = text_start(message)?;
    read_stamp(layout, starts, ends, text_part(message, start))
}

// In the partition named, or in the first that holds the count.
#[tactic(auto, unfolding(rules::specs::Stamp::encode, rules::specs::Answer::and_then))]
fn encode_parsed(starts: &[u8], ends: &[u8], stamp: ParsedStamp) -> Result<Reading, Refusal>
    requires { Listed (partitions_from starts.now ends.now) }
    ensures { answer_of result ≡ encode (partitions_from starts.now ends.now) (parsed stamp) }
{
    let count = match stamp {
        ParsedStamp::Named(number, c) => encode_named(starts, ends, number, c.count)?,
        ParsedStamp::Unnamed(c) => encode_first(starts, ends, c.count)?,
    };
    Ok(Reading { count })
}

// Prints an encoded count up to the total as a stamp.
pub fn print_stamp(
    layout: Layout,
    starts: &[u8],
    ends: &[u8],
    encoded: u64,
    buffer: &mut [u8],
) -> Result<usize, Refusal>
    ensures result_value { answer_of result ≡ length_printed (print_stamp layout (partitions_from starts.now ends.now) encoded (length buffer.old)) }
    ensures buffer_after { buffer.new ≡ buffer_after (print_stamp layout (partitions_from starts.now ends.now) encoded (length buffer.old)) buffer.old }
{
    let basis = accept_stamps(measure(layout), starts, ends)?;
    if basis.total < encoded {
        return Err(Refusal::BeyondTotal);
    }
    stamp_at(layout, decode(starts, ends, encoded), buffer)
}

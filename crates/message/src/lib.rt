// A message: payload, clock text, and a two-byte trailer with the text's length.
#![tactic(auto)]

ghost use Rattle.std.specs.Prelude.{◌≡◌, ◌&&◌, ◌+◌, ◌*◌, leb};
ghost use Rattle.rules.specs.Limits.{longest_text};
ghost use Rattle.rules.specs.Partitions.{partitions};
ghost use Rattle.rules.specs.Message.{text_in, read_message};
ghost use Rattle.message.specs.Part.{start_in, TextAt};
ghost use Rattle.rules.specs.Answer.{answer_of};

use layouts::limits::LONGEST_TEXT;
use rules::{Layout, Reading, Refusal};
use text::read_stamp;

// A message to its stamp's encoded count.
pub fn read_message(
    layout: Layout,
    starts: &[u64],
    ends: &[u64],
    message: &[u8],
) -> Result<Reading, Refusal>
    ensures { answer_of result ≡ read_message layout (partitions starts.now ends.now) message.now }
{
    let start = text_start(message)?;
    read_stamp(layout, starts, ends, text_part(message, start))
}

// The trailer's L is checked here, before anything goes by it.
pub fn text_start(message: &[u8]) -> Result<usize, Refusal>
    ensures { answer_of result ≡ start_in message.now }
{
    let length = message.len();
    if length < 2 {
        return Err(Refusal::NoTrailer);
    }
    let end = length - 2;
    let distance = number(message[end], message[length - 1]);
    if distance < 1 {
        return Err(Refusal::NoText);
    }
    if !is_near(distance, end) {
        return Err(Refusal::WrongDistance);
    }
    Ok(end - distance)
}

// At most 96 bytes back, and no further than the message's first byte.
fn is_near(distance: usize, end: usize) -> bool
    ensures { result ≡ (leb distance longest_text && leb distance end) }
{
    distance <= LONGEST_TEXT && distance <= end
}

// The bytes from there to the trailer.
pub fn text_part(message: &[u8], start: usize) -> &[u8]
    requires { TextAt message.now start }
    ensures { result.now ≡ text_in message.now }
{
    let end = message.len() - 2;
    &message[start..end]
}

// Of two bytes, high byte first.
fn number(high: u8, low: u8) -> usize
    ensures { result ≡ 256 * high + low }
{
    usize::from(u16::from_be_bytes([high, low]))
}

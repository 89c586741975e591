// A line of the operator's input: the text that it is without a byte 13 at its end, and the message that the text is in hex.
#![tactic(auto)]

ghost use Rattle.std.specs.Prelude.{◌≡◌, true, ◌+◌, ◌*◌, ◌≤◌, length, take};
ghost use Rattle.command_rules.specs.Input.{without_return, is_hex, worth, bytes_of, read_hex};
ghost use Rattle.command_input.specs.Runs.{run_length};
ghost use Rattle.command_input.specs.Given.{longest_message, hex_answer, hex_length, HexText};

use rules::Refusal;

const LINE_RETURN: u8 = 13;

const LONGEST_HEX: usize = 4_000;

// How many bytes of a line are its text: one byte 13 at its end is not.
pub fn text_length(line: &[u8]) -> usize
    ensures upper_bound { result ≤ length line.now }
    ensures line_value { take result line.now ≡ without_return line.now }
{
    let n = line.len();
    if n == 0 {
        return 0;
    }
    if line[n - 1] == LINE_RETURN {
        return n - 1;
    }
    n
}

// Reads a message in hex into the front of the lent buffer, which has room for the longest. Of a text that is refused no byte is written.
pub fn read_hex(text: &[u8], message: &mut [u8]) -> Result<usize, Refusal>
    requires { length message.old ≡ longest_message }
    ensures message_after { hex_answer result message.new ≡ read_hex text.now }
    ensures result_bound { hex_length result ≤ longest_message }
    ensures message_len { length message.new ≡ longest_message }
{
    let n = text.len();
    if LONGEST_HEX < n {
        return Err(Refusal::TextTooLong);
    }
    let at = hex_end(text);
    if at < n {
        return Err(Refusal::ByteNotAllowed { at });
    }
    if n % 2 != 0 {
        return Err(Refusal::ByteNotAllowed { at: n });
    }
    Ok(put_message(text, message))
}

// The place of the first byte that is no hex digit, or the text's length.
fn hex_end(text: &[u8]) -> usize
    ensures { result ≡ run_length is_hex text.now }
{
    let mut at = 0;
    while at < text.len() {
        if !is_hex(text[at]) {
            return at;
        }
        at += 1;
    }
    at
}

// A byte for each two digits. How many there are.
fn put_message(text: &[u8], message: &mut [u8]) -> usize
    requires hex_text { HexText text.now }
    requires message_len { length message.old ≡ longest_message }
    ensures message_after { take result message.new ≡ bytes_of text.now }
    ensures upper_bound { result ≤ longest_message }
    ensures message_len_2 { length message.new ≡ longest_message }
{
    let mut at = 0;
    let mut n = 0;
    while at < text.len() {
        message[n] = byte_of(text[at], text[at + 1]);
        at += 2;
        n += 1;
    }
    n
}

// The byte of two digits, the high one first.
fn byte_of(high: u8, low: u8) -> u8
    requires { (is_hex high ≡ true) × (is_hex low ≡ true) }
    ensures { result ≡ 16 * worth high + worth low }
{
    16 * digit_of(high) + digit_of(low)
}

#[tactic(auto, unfolding(command_rules::specs::Input::is_hex, command_rules::specs::Input::worth))]
fn digit_of(byte: u8) -> u8
    requires { is_hex byte ≡ true }
    ensures { (result ≡ worth byte) × (result ≤ 15) }
{
    match byte {
        b'0'..=b'9' => byte - b'0',
        b'A'..=b'F' => byte - b'A' + 10,
        _ => byte - b'a' + 10,
    }
}

#[tactic(auto, using(crate::proofs::Hex::is_hex_is))]
fn is_hex(byte: u8) -> bool
    ensures { result ≡ is_hex byte }
{
    byte.is_ascii_hexdigit()
}

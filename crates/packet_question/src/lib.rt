// The questions of a script that read and write a packet. Each function puts its answer at `place`, and answers the place after it.
#![tactic(auto)]

ghost use Rattle.std.specs.Prelude.{◌≤◌, length};
ghost use Rattle.put.specs.Places.{Put};

use packet_rules::{PacketHeader, TimeOctets};
use rules::Layout;
use script_names::{Numbers, PacketQuestion};
use script_words::hex::read_bytes;
use script_words::numbers::{byte_of, lent_length, short_of};

// The most bytes of a packet to read, or of data to write.
const MOST_BYTES: usize = 65_600;

// The most bytes of a buffer to write into.
const MOST_LENT: usize = 256;

// The line was read: its numbers, which end at `rest`.
pub fn answer(
    question: PacketQuestion,
    numbers: &Numbers,
    line: &[u8],
    rest: usize,
    layout: Layout,
    starts: &[u64],
    ends: &[u64],
    out: &mut [u8],
    place: usize,
) -> usize
    requires { rest ≤ length line.now }
    ensures { Put place out.old result }
{
    let mut bytes = [0u8; MOST_BYTES];
    match read_bytes(line, rest, &mut bytes) {
        Some(n) => ask(
            question,
            numbers,
            &bytes[..n],
            layout,
            starts,
            ends,
            out,
            place,
        ),
        None => answers::put_bad(out, place),
    }
}

// The bytes are a packet, or the data of one.
fn ask(
    question: PacketQuestion,
    numbers: &Numbers,
    bytes: &[u8],
    layout: Layout,
    starts: &[u64],
    ends: &[u64],
    out: &mut [u8],
    place: usize,
) -> usize
    ensures { Put place out.old result }
{
    match question {
        PacketQuestion::Read => {
            let answer = packet_read::read_packet(layout, starts, ends, bytes);
            packet_answers::put_packet(out, place, answer)
        }
        PacketQuestion::Write => write_packet(numbers, bytes, layout, starts, ends, out, place),
    }
}

// Into a buffer that is filled with one byte.
fn write_packet(
    numbers: &Numbers,
    payload: &[u8],
    layout: Layout,
    starts: &[u64],
    ends: &[u64],
    out: &mut [u8],
    place: usize,
) -> usize
    ensures { Put place out.old result }
{
    let size = lent_length(numbers[8], MOST_LENT as u64);
    let mut buffer = [byte_of(numbers[7]); MOST_LENT];
    let lent = &mut buffer[..size];
    let answer = packet_write::write_packet(
        layout,
        starts,
        ends,
        header_of(numbers),
        octets_of(numbers),
        numbers[6],
        payload,
        lent,
    );
    answers::put_print(out, place, answer, lent)
}

fn header_of(numbers: &Numbers) -> PacketHeader {
    PacketHeader {
        kind: byte_of(numbers[0]),
        apid: short_of(numbers[1]),
        flags: byte_of(numbers[2]),
        sequence: short_of(numbers[3]),
    }
}

fn octets_of(numbers: &Numbers) -> TimeOctets {
    TimeOctets {
        coarse: byte_of(numbers[4]),
        fine: byte_of(numbers[5]),
    }
}

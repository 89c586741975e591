// The answers to a script's questions about packets, each a line. Each function puts its bytes at `at` as far as there is room, and
// answers the place after them.
#![tactic(auto)]

ghost use Rattle.put.specs.Places.{Put};

use packet_rules::{Packet, PacketHeader, TimeOctets};
use rules::Refusal;

mod sum;

const LINE_END: u8 = b'\n';

const BLANK: u8 = b' ';

// The header's fields, the numbers of octets, the place of the data, and both counts.
pub fn put_packet(out: &mut [u8], at: usize, answer: Result<Packet, Refusal>) -> usize
    ensures { Put at out.old result }
{
    match answer {
        Ok(packet) => put_read(out, at, packet),
        Err(refusal) => put_refused(out, at, refusal),
    }
}

// The length and the sum of a walk's tail, and the words of its packets.
pub fn put_walk(out: &mut [u8], at: usize, tail: &[u8], words: &[u8]) -> usize
    ensures { Put at out.old result }
{
    let place = put::text(out, at, b"ok");
    let place = put_length_sum(out, place, tail, BLANK);
    let place = put::text(out, place, words);
    put::byte(out, place, LINE_END)
}

// The word of one packet of a walk, with a blank before it.
pub fn put_walked(out: &mut [u8], at: usize, packet: &[u8]) -> usize
    ensures { Put at out.old result }
{
    put_length_sum(out, at, packet, b':')
}

pub fn put_refused(out: &mut [u8], at: usize, refusal: Refusal) -> usize
    ensures { Put at out.old result }
{
    let place = put::refusal(out, at, refusal);
    put::byte(out, place, LINE_END)
}

fn put_read(out: &mut [u8], at: usize, packet: Packet) -> usize
    ensures { Put at out.old result }
{
    let place = put_header(out, at, packet.header);
    let place = put_octets(out, place, packet.octets);
    let place = put_word(out, place, packet.payload_at as u64);
    let place = put_word(out, place, packet.count);
    let place = put_word(out, place, packet.encoded);
    put::byte(out, place, LINE_END)
}

fn put_header(out: &mut [u8], at: usize, header: PacketHeader) -> usize
    ensures { Put at out.old result }
{
    let place = put::text(out, at, b"ok");
    let place = put_word(out, place, u64::from(header.kind));
    let place = put_word(out, place, u64::from(header.apid));
    let place = put_word(out, place, u64::from(header.flags));
    put_word(out, place, u64::from(header.sequence))
}

fn put_octets(out: &mut [u8], at: usize, octets: TimeOctets) -> usize
    ensures { Put at out.old result }
{
    let place = put_word(out, at, u64::from(octets.coarse));
    put_word(out, place, u64::from(octets.fine))
}

// The length and the sum of bytes, a blank before the one and a mark before the other.
fn put_length_sum(out: &mut [u8], at: usize, bytes: &[u8], mark: u8) -> usize
    ensures { Put at out.old result }
{
    let place = put_word(out, at, bytes.len() as u64);
    let place = put::byte(out, place, mark);
    put_sum(out, place, bytes)
}

fn put_word(out: &mut [u8], at: usize, number: u64) -> usize
    ensures { Put at out.old result }
{
    let place = put::byte(out, at, BLANK);
    put::number(out, place, number)
}

// Eight hexadecimal digits.
fn put_sum(out: &mut [u8], at: usize, bytes: &[u8]) -> usize
    ensures { Put at out.old result }
{
    put::hexadecimal(out, at, sum::adler(bytes), 8)
}

// Reading a packet: its header's fields, where its data stand, and the count of its time. Nothing in it divides.
#![tactic(auto)]

ghost use Rattle.std.specs.Prelude.{◌≡◌, ◌∷◌, [], ◌+◌, ◌^◌, ◌≤◌, ◌<◌, min, eqb, length};
ghost use Rattle.base.specs.Scans.{all_of};
ghost use Rattle.rules.specs.Limits.{largest_p, largest_msf};
ghost use Rattle.rules.specs.Answer.{answer, answer_of};
ghost use Rattle.rules.specs.Partitions.{partitions};
ghost use Rattle.packet_rules.specs.Octets.{bits};
ghost use Rattle.packet_rules.specs.Header.{header_in, octets_in, header_octets, agency_epoch, time_end};
ghost use Rattle.packet_rules.specs.Read.{accepted_packet, ticks, ticks_in, packet_at, read_packet};
ghost use Rattle.packet_read.specs.Form.{octets_by, TimeThere, Held};

use encode::encode_first;
use packet_clock::accept_clock;
use packet_octets::{above, field, number_at, word_at};
use packet_rules::{Packet, PacketHeader, TimeOctets};
use rules::{Layout, Refusal};
use wide::mul_add_capped;

// Where the time begins, behind the primary header and the P-field: so long is the shortest packet.
const TIME_START: usize = 7;

// A whole packet to its header's fields, the place of its data, its clock's count and its encoded count.
pub fn read_packet(
    layout: Layout,
    starts: &[u64],
    ends: &[u64],
    packet: &[u8],
) -> Result<Packet, Refusal>
    ensures { answer_of result ≡ read_packet layout (partitions starts.now ends.now) packet.now }
{
    let octets = check_packet(packet)?;
    accept_clock(layout, starts, ends)?;
    count_packet(starts, ends, layout.moduli[1], octets, packet)
}

// 25 for another length, 26 for another form, 25 for a time past the data; else the octets of the time.
fn check_packet(packet: &[u8]) -> Result<TimeOctets, Refusal>
    ensures { answer_of result ≡ accepted_packet packet.now (answer (octets_in packet.now)) }
{
    let length = packet.len();
    if length < TIME_START || length != TIME_START + word_at(packet, 4) as usize {
        return Err(Refusal::PacketLength);
    }
    let p = u64::from(packet[6]);
    if !form_ok(word_at(packet, 0), p) {
        return Err(Refusal::PacketForm);
    }
    let octets = time_octets(p);
    if length < time_end(octets) {
        return Err(Refusal::PacketLength);
    }
    Ok(octets)
}

// Version 0 with a secondary header; no extension, time code 010.
#[tactic(auto, unfolding(base::specs::Scans::all_of))]
fn form_ok(identification: u64, p: u64) -> bool
    ensures { result ≡ all_of (eqb (bits 13 3 identification) 0 ∷ eqb (bits 11 1 identification) 1 ∷ eqb (bits 7 1 p) 0 ∷ eqb (bits 4 3 p) agency_epoch ∷ []) }
{
    field(identification, 13, 3) == 0
        && field(identification, 11, 1) == 1
        && field(p, 7, 1) == 0
        && field(p, 4, 3) == 2
}

// How many octets the time has, by the P-field.
fn time_octets(p: u64) -> TimeOctets
    ensures value { result ≡ octets_by p }
    ensures coarse_bound { (result.coarse ≤ 4) × (result.fine ≤ 3) }
{
    TimeOctets {
        coarse: field(p, 2, 2) as u8 + 1,
        fine: field(p, 0, 2) as u8,
    }
}

// Where the data after the time begin.
fn time_end(octets: TimeOctets) -> usize
    ensures { result ≡ time_end octets }
{
    TIME_START + octets.coarse as usize + octets.fine as usize
}

// A packet of good form: 11, or all that it gives.
fn count_packet(
    starts: &[u64],
    ends: &[u64],
    modulus: u64,
    octets: TimeOctets,
    packet: &[u8],
) -> Result<Packet, Refusal>
    requires held { Held (partitions starts.now ends.now) }
    requires modulus_le_largest_msf { modulus ≤ largest_msf }
    requires time_there { TimeThere octets packet.now }
    ensures { answer_of result ≡ packet_at (partitions starts.now ends.now) packet.now (ticks_in modulus octets packet.now) }
{
    let count = count_time(modulus, octets, packet);
    let encoded = encode_first(starts, ends, count)?;
    Ok(Packet {
        header: header_of(packet),
        octets,
        payload_at: time_end(octets),
        count,
        encoded,
    })
}

// The ticks of the time, or the largest P where they are more: no partition holds either.
fn count_time(modulus: u64, octets: TimeOctets, packet: &[u8]) -> u64
    requires modulus_le_largest_msf { modulus ≤ largest_msf }
    requires time_there { TimeThere octets packet.now }
    ensures { result ≡ min (ticks_in modulus octets packet.now) largest_p }
{
    let middle = TIME_START + octets.coarse as usize;
    let coarse = number_at(packet, TIME_START, octets.coarse as usize);
    let fine = number_at(packet, middle, octets.fine as usize);
    count_ticks(modulus, octets.fine, coarse, fine)
}

// The whole units are whole ticks, so that only the fine part's ticks are shifted, by eight bits for each of its octets.
fn count_ticks(modulus: u64, octets: u8, coarse: u64, fine: u64) -> u64
    requires modulus_le_largest_msf { modulus ≤ largest_msf }
    requires octets_bound { (octets ≤ 3) × (fine < 256 ^ octets) }
    ensures { result ≡ min (ticks modulus octets coarse fine) largest_p }
{
    mul_add_capped(
        coarse,
        modulus,
        above(fine * modulus, octets),
        Layout::LARGEST_P,
    )
}

fn header_of(packet: &[u8]) -> PacketHeader
    requires { header_octets ≤ length packet.now }
    ensures { result ≡ header_in packet.now }
{
    let identification = word_at(packet, 0);
    let control = word_at(packet, 2);
    PacketHeader {
        kind: field(identification, 12, 1) as u8,
        apid: field(identification, 0, 11) as u16,
        flags: field(control, 14, 2) as u8,
        sequence: field(control, 0, 14) as u16,
    }
}

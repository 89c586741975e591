// Writing a packet: header fields, an encoded count as its time, and data, to the front of a lent buffer. All is checked before the
// first byte is written, so that a refusal leaves the buffer.
#![tactic(auto)]

ghost use Rattle.std.specs.Prelude.{◌≡◌, length};
ghost use Rattle.rules.specs.Partitions.{partitions};
ghost use Rattle.rules.specs.Print.{length_printed, buffer_after};
ghost use Rattle.buffer_print.specs.Printed.{Printed};
ghost use Rattle.packet_rules.specs.Write.{packet_of, write_packet};
ghost use Rattle.packet_ranges.specs.Octets.{OctetsFacts};
ghost use Rattle.packet_write.specs.Ready.{Ready};
ghost use Rattle.rules.specs.Answer.{answer_of};

use decode::decode;
use packet_bytes::write_all;
use packet_clock::accept_clock;
use packet_octets::above;
use packet_ranges::is_writable;
use packet_rules::{PacketHeader, TimeOctets};
use rules::{Layout, Refusal};

// P-field, time and the data after it.
const MOST_DATA_OCTETS: usize = 65_536;

// The packet of an encoded count: the answer is its length. The second modulus must be 256^f for f fine octets.
pub fn write_packet(
    layout: Layout,
    starts: &[u64],
    ends: &[u64],
    header: PacketHeader,
    octets: TimeOctets,
    encoded: u64,
    payload: &[u8],
    buffer: &mut [u8],
) -> Result<usize, Refusal>
    ensures result_value { answer_of result ≡ length_printed (write_packet layout (partitions starts.now ends.now) header octets encoded payload.now (length buffer.old)) }
    ensures buffer_after { buffer.new ≡ buffer_after (write_packet layout (partitions starts.now ends.now) header octets encoded payload.now (length buffer.old)) buffer.old }
{
    let b = accept_clock(layout, starts, ends)?;
    if !is_writable(header, octets, layout.moduli[1]) {
        return Err(Refusal::PacketForm);
    }
    write_counted(
        b.total, starts, ends, header, octets, encoded, payload, buffer,
    )
}

// 25, 12, 9 and 16, or the packet.
fn write_counted(
    total: u64,
    starts: &[u64],
    ends: &[u64],
    header: PacketHeader,
    octets: TimeOctets,
    encoded: u64,
    payload: &[u8],
    buffer: &mut [u8],
) -> Result<usize, Refusal>
    requires ready { Ready total (partitions starts.now ends.now) }
    requires octets_facts { OctetsFacts octets }
    ensures { Printed (packet_of (partitions starts.now ends.now) header octets encoded payload.now (length buffer.old)) result buffer.old buffer.new }
{
    let before = 1 + octets.coarse as usize + octets.fine as usize;
    if MOST_DATA_OCTETS - before < payload.len() {
        return Err(Refusal::PacketLength);
    }
    if total < encoded {
        return Err(Refusal::BeyondTotal);
    }
    let place = decode(starts, ends, encoded);
    let count = place.count;
    let units = above(count, octets.fine);
    if above(units, octets.coarse) != 0 {
        return Err(Refusal::CountTooLarge);
    }
    let end = 6 + (before + payload.len());
    if buffer.len() < end {
        return Err(Refusal::BufferTooShort);
    }
    write_all(header, octets, units, count, payload, end, buffer);
    Ok(end)
}

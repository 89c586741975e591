// The octets of a packet, written from right to left: each function is given where its octets end and answers where they start.
#![tactic(auto)]

ghost use Rattle.std.specs.Prelude.{◌≡◌, [], ◌∷◌, ◌++◌, ◌+◌, ◌-◌, ◌/◌, ◌^◌, length};
ghost use Rattle.decimal.specs.Writing.{Room, Written};
ghost use Rattle.packet_rules.specs.Octets.{octets as low_octets};
ghost use Rattle.packet_rules.specs.Header.{time_end};
ghost use Rattle.packet_rules.specs.Write.{identification_of, sequence_control_of, p_field_of, packet_bytes};
ghost use Rattle.packet_ranges.specs.Octets.{OctetsFacts};

use decimal::write_byte;
use packet_octets::{write_octets, write_part};
use packet_rules::{PacketHeader, TimeOctets};

// The whole packet, of a count and its whole units.
pub fn write_all(
    header: PacketHeader,
    octets: TimeOctets,
    units: u64,
    count: u64,
    payload: &[u8],
    end: usize,
    buffer: &mut [u8],
) -> usize
    requires octets_facts { OctetsFacts octets }
    requires units_value { units ≡ count / 256 ^ octets.fine }
    requires end_value { end ≡ time_end octets + length payload.now }
    requires room { Room (packet_bytes header octets count payload.now) end buffer.old }
    ensures { Written (packet_bytes header octets count payload.now) end result buffer.old buffer.new }
{
    let coarse = octets.coarse as usize;
    let fine = octets.fine as usize;
    let middle = write_data(units, coarse, count, fine, payload, end, buffer);
    write_front(
        identification(header),
        sequence_control(header),
        end as u64 - 7,
        p_field(octets),
        middle,
        buffer,
    )
}

// The primary header and the P-field.
fn write_front(
    identification: u64,
    control: u64,
    length: u64,
    p: u8,
    end: usize,
    buffer: &mut [u8],
) -> usize
    requires { Room ((low_octets 2 identification ++ low_octets 2 control) ++ (low_octets 2 length ++ (p ∷ []))) end buffer.old }
    ensures { Written ((low_octets 2 identification ++ low_octets 2 control) ++ (low_octets 2 length ++ (p ∷ []))) end result buffer.old buffer.new }
{
    let middle = write_length(length, p, end, buffer);
    write_pair(identification, 2, control, 2, middle, buffer)
}

fn write_length(length: u64, p: u8, end: usize, buffer: &mut [u8]) -> usize
    requires { Room (low_octets 2 length ++ (p ∷ [])) end buffer.old }
    ensures { Written (low_octets 2 length ++ (p ∷ [])) end result buffer.old buffer.new }
{
    let middle = write_byte(p, end, buffer);
    write_octets(length, 2, middle, buffer)
}

// The time and the data after it.
fn write_data(
    units: u64,
    coarse: usize,
    count: u64,
    fine: usize,
    payload: &[u8],
    end: usize,
    buffer: &mut [u8],
) -> usize
    requires { Room ((low_octets coarse units ++ low_octets fine count) ++ payload.now) end buffer.old }
    ensures { Written ((low_octets coarse units ++ low_octets fine count) ++ payload.now) end result buffer.old buffer.new }
{
    let middle = write_part(payload, end, buffer);
    write_pair(units, coarse, count, fine, middle, buffer)
}

// Two numbers, each with so many octets.
fn write_pair(first: u64, n: usize, second: u64, m: usize, end: usize, buffer: &mut [u8]) -> usize
    requires { Room (low_octets n first ++ low_octets m second) end buffer.old }
    ensures { Written (low_octets n first ++ low_octets m second) end result buffer.old buffer.new }
{
    let middle = write_octets(second, m, end, buffer);
    write_octets(first, n, middle, buffer)
}

// The first word: version 0, with a secondary header.
fn identification(header: PacketHeader) -> u64
    ensures { result ≡ identification_of header }
{
    header.kind as u64 * 4_096 + 2_048 + header.apid as u64
}

fn sequence_control(header: PacketHeader) -> u64
    ensures { result ≡ sequence_control_of header }
{
    header.flags as u64 * 16_384 + header.sequence as u64
}

// No extension, time code 010.
fn p_field(octets: TimeOctets) -> u8
    requires { OctetsFacts octets }
    ensures { result ≡ p_field_of octets }
{
    32 + (octets.coarse - 1) * 4 + octets.fine
}

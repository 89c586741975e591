// Reading a packet as one function of an archive, so that its machine code can be looked through. It is no call for host programs.
#![tactic(auto)]

ghost use Rattle.std.specs.Prelude.{◌≡◌, [], ◌∷◌};
ghost use Rattle.rules.specs.Answer.{as_numbered};
ghost use Rattle.rules.specs.Partitions.{partitions};
ghost use Rattle.packet_rules.specs.Read.{read_packet};
ghost use Rattle.packet_code.specs.Mixed.{with, mixed_packet, mixed_refusal, mixed};

use packet_read::read_packet;
use packet_rules::Packet;
use rules::{Layout, Refusal};

// Everything that reading gives goes into the result, so that the compiler keeps all of it.
#[unsafe(no_mangle)]
pub extern "C" fn packet_code_read(
    n: u64,
    delimiter: u8,
    first: u64,
    second: u64,
    starts: &[u64],
    ends: &[u64],
    packet: &[u8],
) -> u64
    ensures { result ≡ mixed (read_packet (record { n = n; moduli = first ∷ second ∷ 1 ∷ 1 ∷ 1 ∷ 1 ∷ 1 ∷ 1 ∷ 1 ∷ 1 ∷ []; offsets = 0 ∷ 0 ∷ 0 ∷ 0 ∷ 0 ∷ 0 ∷ 0 ∷ 0 ∷ 0 ∷ 0 ∷ []; delimiter = delimiter }) (partitions starts.now ends.now) packet.now) }
{
    let layout = Layout {
        n: n as usize,
        moduli: [first, second, 1, 1, 1, 1, 1, 1, 1, 1],
        offsets: [0; Layout::MOST_FIELDS],
        delimiter,
    };
    match read_packet(layout, starts, ends, packet) {
        Ok(k) => mix_packet(k),
        Err(k) => mix_refusal(k),
    }
}

#[tactic(auto, unfolding(crate::specs::Mixed::mixed_packet))]
fn mix_packet(packet: Packet) -> u64
    ensures { result ≡ mixed_packet packet }
{
    let x = mix(0, packet.header.kind as u64);
    let x = mix(x, packet.header.apid as u64);
    let x = mix(x, packet.header.flags as u64);
    let x = mix(x, packet.header.sequence as u64);
    let x = mix(x, packet.octets.coarse as u64);
    let x = mix(x, packet.octets.fine as u64);
    let x = mix(x, packet.payload_at as u64);
    let x = mix(x, packet.count);
    mix(x, packet.encoded)
}

fn mix_refusal(refusal: Refusal) -> u64
    ensures { result ≡ mixed_refusal (as_numbered refusal) }
{
    let number = refusal_numbers::number(refusal);
    match refusal.place() {
        Some(i) => mix(number, i as u64),
        None => number,
    }
}

#[tactic(auto, unfolding(crate::specs::Mixed::with))]
fn mix(x: u64, y: u64) -> u64
    ensures { result ≡ with x y }
{
    std::num::wrapping_add_u64(std::num::wrapping_add_u64(x, x), y)
}

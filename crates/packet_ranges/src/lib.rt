// The ranges of what a packet is written from.
#![tactic(auto)]

ghost use Rattle.std.specs.Prelude.{◌≡◌, ◌^◌, [], ◌∷◌, leb, eqb};
ghost use Rattle.base.specs.Scans.{all_of};
ghost use Rattle.packet_rules.specs.Header.{most_coarse, most_fine, largest_kind, largest_apid, largest_flags, largest_sequence};
ghost use Rattle.packet_rules.specs.Write.{writable};

use packet_rules::{PacketHeader, TimeOctets};

// Whether the time's octets, the second modulus and each header field are within their ranges.
#[tactic(auto, using(crate::proofs::Writable::both), unfolding(packet_rules::specs::Write::writable))]
pub fn is_writable(header: PacketHeader, octets: TimeOctets, modulus: u64) -> bool
    ensures { result ≡ writable header octets modulus }
{
    is_time(octets, modulus) && is_header(header)
}

#[tactic(auto, using(crate::proofs::Writable::octet_power), unfolding(base::specs::Scans::all_of))]
fn is_time(octets: TimeOctets, modulus: u64) -> bool
    ensures { result ≡ all_of (leb 1 octets.coarse ∷ leb octets.coarse most_coarse ∷ leb octets.fine most_fine ∷ eqb modulus (256 ^ octets.fine) ∷ []) }
{
    1 <= octets.coarse
        && octets.coarse <= 4
        && octets.fine <= 3
        && modulus == 1 << (8 * u32::from(octets.fine))
}

#[tactic(auto, unfolding(base::specs::Scans::all_of))]
fn is_header(header: PacketHeader) -> bool
    ensures { result ≡ all_of (leb header.kind largest_kind ∷ leb header.apid largest_apid ∷ leb header.flags largest_flags ∷ leb header.sequence largest_sequence ∷ []) }
{
    header.kind <= 1 && header.apid <= 2_047 && header.flags <= 3 && header.sequence <= 16_383
}

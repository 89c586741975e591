// Octets of a packet: fields of a few bits, numbers in octets, high octet first, and octets written into a buffer from right to
// left. Nothing here divides or takes a remainder by anything but a power of two.
#![tactic(auto)]

ghost use Rattle.std.specs.Prelude.{◌≡◌, ◌+◌, ◌/◌, ◌%◌, ◌^◌, ◌≤◌, ◌<◌, length, take, drop};
ghost use Rattle.decimal.specs.Writing.{Room, Written};
ghost use Rattle.packet_rules.specs.Octets.{big, bits, octets};
ghost use Rattle.packet_rules.specs.Header.{word_at};

// The `n` bits of a word above its `k` lowest.
pub fn field(word: u64, k: u32, n: u32) -> u64
    requires { (k < 16) × (n < 16) }
    ensures { (result ≡ bits k n word) × (result < 2 ^ n) }
{
    (word >> k) & ((1 << n) - 1)
}

// The word of two octets at this place.
pub fn word_at(s: &[u8], at: usize) -> u64
    requires { at + 2 ≤ length s.now }
    ensures value { result ≡ word_at at s.now }
    ensures upper_bound { result < 2 ^ 16 }
{
    u64::from(u16::from_be_bytes([s[at], s[at + 1]]))
}

// The number that `n` octets make from this place on, up to four of them.
pub fn number_at(s: &[u8], at: usize, n: usize) -> u64
    requires { (n ≤ 4) × (at + n ≤ length s.now) }
    ensures value { result ≡ big (take n (drop at s.now)) }
    ensures upper_bound { result < 256 ^ n }
{
    let mut x: u64 = 0;
    for i in 0..n {
        x = 256 * x + u64::from(s[at + i]);
    }
    x
}

// `x` without its `n` lowest octets; `n` is at most four.
#[tactic(auto, using(crate::proofs::Numbers::above_is))]
pub fn above(x: u64, n: u8) -> u64
    requires { n ≤ 4 }
    ensures { result ≡ x / 256 ^ n }
{
    x >> (8 * u32::from(n))
}

// Writes the `n` low octets of `x` so that they end at index `end`, and answers where they start.
pub fn write_octets(x: u64, n: usize, end: usize, buffer: &mut [u8]) -> usize
    requires { Room (octets n x) end buffer.old }
    ensures { Written (octets n x) end result buffer.old buffer.new }
{
    let start = end - n;
    let mut rest = x;
    for at in (start..end).rev() {
        buffer[at] = (rest % 256) as u8;
        rest /= 256;
    }
    start
}

// Copies `part` so that it ends at index `end`, and answers where it starts.
pub fn write_part(part: &[u8], end: usize, buffer: &mut [u8]) -> usize
    requires { Room part.now end buffer.old }
    ensures { Written part.now end result buffer.old buffer.new }
{
    let start = end - part.len();
    buffer[start..end].copy_from_slice(part);
    start
}

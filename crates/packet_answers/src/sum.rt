// Adler-32 of bytes (RFC 1950).
ghost use Rattle.std.specs.Prelude.{◌≡◌};
ghost use Rattle.packet_answers.specs.Sum;

// The largest prime below 65,536.
const BASE: u64 = 65_521;

pub fn adler(bytes: &[u8]) -> u64
    ensures { result ≡ Sum.adler bytes.now }
{
    let mut a: u64 = 1;
    let mut b: u64 = 0;
    for byte in bytes {
        a = (a + u64::from(*byte)) % BASE;
        b = (b + a) % BASE;
    }
    b * 65_536 + a
}

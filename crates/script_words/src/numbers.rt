// The number that a word spells.
ghost use Rattle.std.specs.Prelude.{◌≡◌, ◌≤◌, ◌%◌, min, length, IfSome};
ghost use Rattle.script_words.specs.Words.{UpTo, largest};

// A number and the place after it.
#[derive(Clone, Copy)]
pub struct Word {
    pub value: u64,
    pub next: usize,
}

// The ordinal of the time 0.
const ZERO_TIME: u64 = 0x8000_0000_0000_0000;

// A double's sign, and the bits of infinity.
const SIGN: u64 = 0x8000_0000_0000_0000;

const INFINITY: u64 = 0x7ff0_0000_0000_0000;

const BITS_DIGITS: usize = 16;

// A number from 0 to `limit`, leading zeros allowed.
pub fn decimal(line: &[u8], from: usize, limit: u64) -> Option<Word>
    requires from_in_bounds { from ≤ length line.now }
    requires le_limit { (16 ≤ limit) × (limit ≤ largest) }
    ensures { UpTo limit (length line.now) result }
{
    digits(line, from, line.len(), 10, limit, 1)
}

// The ordinal of a time, `-` in front of one below 0.
pub fn time(line: &[u8], from: usize) -> Option<Word>
    requires { from ≤ length line.now }
    ensures { UpTo largest (length line.now) result }
{
    if from < line.len() && line[from] == b'-' {
        let word = decimal(line, from + 1, ZERO_TIME)?;
        return Some(Word {
            value: ZERO_TIME - word.value,
            next: word.next,
        });
    }
    let word = decimal(line, from, ZERO_TIME - 1)?;
    Some(Word {
        value: ZERO_TIME + word.value,
        next: word.next,
    })
}

// The 16 hexadecimal digits of a double's bits.
pub fn bits(line: &[u8], from: usize) -> Option<Word>
    requires { from ≤ length line.now }
    ensures { UpTo largest (length line.now) result }
{
    if line.len() - from < BITS_DIGITS {
        return None;
    }
    digits(line, from, from + BITS_DIGITS, 16, u64::MAX, BITS_DIGITS)
}

// The number up to `limit` that the digits from `from` on spell, at least `least`, none of them at `end` or behind it.
fn digits(line: &[u8], from: usize, end: usize, base: u64, limit: u64, least: usize) -> Option<Word>
    requires from_le_end { (from ≤ end) × (end ≤ length line.now) }
    requires le_base { (10 ≤ base) × (base ≤ 16) }
    requires le_limit { (16 ≤ limit) × (limit ≤ largest) }
    ensures { UpTo limit (length line.now) result }
{
    let mut value: u64 = 0;
    for i in from..end {
        let Some(worth) = digit_of(line[i], base) else {
            return spelled(from, i, value, least);
        };
        let d = u64::from(worth);
        if (limit - d) / base < value {
            return None;
        }
        value = value * base + d;
    }
    spelled(from, end, value, least)
}

// At least so many digits stand before `next`.
fn spelled(from: usize, next: usize, value: u64, least: usize) -> Option<Word>
    requires { from ≤ next }
    ensures { UpTo value next result }
{
    if next - from < least {
        return None;
    }
    Some(Word { value, next })
}

// A digit below `base`, above 9 a lower-case letter.
pub fn digit_of(byte: u8, base: u64) -> Option<u8>
    ensures { IfSome result (λ worth. worth ≤ 15) }
{
    let worth = match byte {
        b'0'..=b'9' => byte - b'0',
        b'a'..=b'f' => byte - b'a' + 10,
        _ => return None,
    };
    if u64::from(worth) < base {
        Some(worth)
    } else {
        None
    }
}

// A number of the form b.
pub fn byte_of(number: u64) -> u8
    ensures { result ≡ number % 256 }
{
    (number % 256) as u8
}

// A number of the form s.
pub fn short_of(number: u64) -> u16
    ensures { result ≡ number % 65536 }
{
    (number % 65_536) as u16
}

// A number of the form w.
pub fn word_of(number: u64) -> u32
    ensures { result ≡ number % 4294967296 }
{
    (number % 4_294_967_296) as u32
}

// A number of the form l, e or r.
pub fn lent_length(number: u64, most: u64) -> usize
    ensures { result ≡ min number most }
{
    number.min(most) as usize
}

// Every pattern above that of infinity, the sign aside, means NaN.
pub fn double_of(pattern: u64) -> f64 {
    if INFINITY < pattern % SIGN {
        return f64::NAN;
    }
    f64::from_bits(pattern)
}

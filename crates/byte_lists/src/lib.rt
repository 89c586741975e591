// Numbers where they lie in bytes: eight for each, low byte first. Nothing is copied.
#![tactic(auto)]

ghost use Rattle.std.specs.Prelude.{◌≡◌, ◌+◌, ◌*◌, ◌<◌, ◌≤◌, ◌++◌, length, take, drop, pos, slice_index, slice_index_or};
ghost use Rattle.c_rules.specs.Numbers.{little, numbers, times, time_bytes};

// How many numbers; none where the bytes are not in eights.
pub fn rows(s: &[u8]) -> usize
    ensures { result ≡ length (numbers s.now) }
{
    if s.len() % 8 == 0 { s.len() / 8 } else { 0 }
}

pub fn number_at(s: &[u8], i: usize) -> u64
    requires { i < length (numbers s.now) }
    ensures { result ≡ slice_index (numbers s.now) i }
{
    bits_at(s, i)
}

pub fn time_at(s: &[u8], i: usize) -> i64
    requires { i < length (times s.now) }
    ensures { result ≡ slice_index_or (times s.now) i (pos 0) }
{
    number_at(s, i).cast_signed()
}

// The number in a slot of the first `n`, and 0 behind them.
pub fn slot(s: &[u8], n: usize, i: usize) -> u64
    requires { n ≤ length (numbers s.now) }
    ensures { result ≡ slice_index (take n (numbers s.now)) i }
{
    if i < n { number_at(s, i) } else { 0 }
}

fn bits_at(s: &[u8], i: usize) -> u64
    requires { 8 * i + 8 ≤ length s.now }
    ensures { result ≡ little (take 8 (drop (8 * i) s.now)) }
{
    let at = 8 * i;
    u64::from_le_bytes([
        s[at],
        s[at + 1],
        s[at + 2],
        s[at + 3],
        s[at + 4],
        s[at + 5],
        s[at + 6],
        s[at + 7],
    ])
}

// Writes a time to the front of a buffer that has room for it.
pub fn put_time(buffer: &mut [u8], t: i64)
    requires { 8 ≤ length buffer.old }
    ensures { buffer.new ≡ time_bytes t ++ drop 8 buffer.old }
{
    buffer[..8].copy_from_slice(&t.to_le_bytes());
}

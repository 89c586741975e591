// Decimal digits: how many a number has, and writing them into a buffer from right to left.
#![tactic(auto)]

ghost use Rattle.std.specs.Prelude.{◌+◌, ◌<◌, ◌≤◌, ◌≡◌, [], ◌∷◌};
ghost use Rattle.rules.specs.Print.{digit_count, last_digits};
ghost use Rattle.decimal.specs.Writing.{Room, Written};

// How many decimal digits x has, 0 having one.
pub fn digit_count(x: u64) -> usize
    ensures value { result ≡ digit_count x }
    ensures upper_bound { result ≤ 20 }
{
    let mut rest = x;
    let mut digits = 1;
    while 10_000 <= rest {
        rest /= 10_000;
        digits += 4;
    }
    if rest < 10 {
        return digits;
    }
    if rest < 100 {
        return digits + 1;
    }
    if rest < 1_000 {
        return digits + 2;
    }
    digits + 3
}

// Writes the last digits of x, as many as width says, so that they end at index end, and answers where they start.
pub fn write_digits(x: u64, width: usize, end: usize, buffer: &mut [u8]) -> usize
    requires { Room (last_digits width x) end buffer.old }
    ensures { Written (last_digits width x) end result buffer.old buffer.new }
{
    let start = end - width;
    let mut rest = x;
    for at in (start..end).rev() {
        buffer[at] = b'0' + (rest % 10) as u8;
        rest /= 10;
    }
    start
}

// Writes one byte, just before index end, and answers where it stands.
pub fn write_byte(byte: u8, end: usize, buffer: &mut [u8]) -> usize
    requires { Room (byte ∷ []) end buffer.old }
    ensures { Written (byte ∷ []) end result buffer.old buffer.new }
{
    let at = end - 1;
    buffer[at] = byte;
    at
}

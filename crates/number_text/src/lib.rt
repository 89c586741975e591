// Bytes, numbers and times as text, put into a buffer at `at`. Each function answers the place after what it put.
#![tactic(auto)]

ghost use Rattle.std.specs.Prelude.{◌≡◌, [], ◌∷◌, ◌++◌, ◌+◌, ◌≤◌, ◌<◌, length, take};
ghost use Rattle.rules.specs.Print.{digit_count};
ghost use Rattle.decimal.specs.Writing.{Written};
ghost use Rattle.number_text.specs.Numbers.{decimal_of, time_bytes, longest_number};

use decimal::{digit_count, write_digits};

#[tactic(auto, using(crate::proofs::Bytes::text_whole))]
pub fn put_bytes(out: &mut [u8], at: usize, text: &[u8]) -> usize
    requires { at + length text.now ≤ length out.old }
    ensures { Written text.now result at out.old out.new }
{
    put_front(out, at, text, text.len())
}

// The first `n` bytes of a text.
pub fn put_front(out: &mut [u8], at: usize, text: &[u8], n: usize) -> usize
    requires n_in_bounds { n ≤ length text.now }
    requires n_in_bounds_2 { at + n ≤ length out.old }
    ensures written { Written (take n text.now) result at out.old out.new }
    ensures value { result ≡ at + n }
{
    let end = at + n;
    out[at..end].copy_from_slice(&text[..n]);
    end
}

#[tactic(auto, using(crate::proofs::Bytes::byte_put))]
pub fn put_byte(out: &mut [u8], at: usize, byte: u8) -> usize
    requires { at < length out.old }
    ensures written { Written (byte ∷ []) result at out.old out.new }
    ensures value { result ≡ at + 1 }
{
    out[at] = byte;
    at + 1
}

// A number and one byte after it.
pub fn put_number(out: &mut [u8], at: usize, number: u64, after: u8) -> usize
    requires { at + longest_number < length out.old }
    ensures written { Written (decimal_of number ++ (after ∷ [])) result at out.old out.new }
    ensures value { result ≡ at + digit_count number + 1 }
    ensures upper_bound { result ≤ at + longest_number + 1 }
{
    let width = digit_count(number);
    let end = at + width;
    write_digits(number, width, end, out);
    out[end] = after;
    end + 1
}

// A time and one byte after it.
#[tactic(auto, using(crate::proofs::Bytes::half_digits))]
pub fn put_time(out: &mut [u8], at: usize, time: i64, after: u8) -> usize
    requires { at + longest_number + 1 < length out.old }
    ensures written { Written (time_bytes time ++ (after ∷ [])) result at out.old out.new }
    ensures upper_bound { result ≤ at + longest_number + 1 }
{
    let magnitude = time.unsigned_abs();
    if time < 0 {
        let place = put_byte(out, at, b'-');
        return put_number(out, place, magnitude, after);
    }
    put_number(out, at, magnitude, after)
}

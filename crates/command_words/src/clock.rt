// A word as a clock's number: digits, `-` in front of a negative one, in 64 bits.
ghost use Rattle.std.specs.Prelude.{◌≡◌, ◌-◌, ◌≤◌, IfSome};
ghost use Rattle.command_words.specs.Clock.{least, spelled, clock_of, below_zero, from_zero};

// The least i64 without its sign.
const LEAST: u64 = 0x8000_0000_0000_0000;

// None where the word is no such number.
#[tactic(auto, using(crate::proofs::Numbers::minus_clock, crate::proofs::Numbers::plus_clock))]
pub fn clock_of(w: &[u8]) -> Option<i64>
    ensures { result ≡ clock_of w.now }
{
    match w.strip_prefix(b"-") {
        Some(digits) => below_zero(digits),
        None => from_zero(w),
    }
}

#[tactic(auto, using(crate::proofs::Numbers::below_number))]
fn below_zero(w: &[u8]) -> Option<i64>
    ensures { result ≡ below_zero (spelled least w.now) }
{
    let number = spelled(w, LEAST)?;
    Some(signed::from_ordinal(LEAST - number))
}

#[tactic(auto, using(crate::proofs::Numbers::from_number))]
fn from_zero(w: &[u8]) -> Option<i64>
    ensures { result ≡ from_zero (spelled (least - 1) w.now) }
{
    let number = spelled(w, LEAST - 1)?;
    Some(number as i64)
}

// The number that at least one digit spells, where it is at most the limit.
#[tactic(auto, using(crate::proofs::Spelling::no_digit, crate::proofs::Spelling::some_digits, crate::proofs::Spelling::no_such_digit, crate::proofs::Spelling::too_large, crate::proofs::Spelling::one_more, crate::proofs::Spelling::all_digits))]
fn spelled(w: &[u8], limit: u64) -> Option<u64>
    requires { (9 ≤ limit) × (limit ≤ least) }
    ensures value { result ≡ spelled limit w.now }
    ensures upper_bound { IfSome result (λ n. n ≤ limit) }
{
    if w.is_empty() {
        return None;
    }
    let mut value = 0;
    for byte in w {
        if !byte.is_ascii_digit() {
            return None;
        }
        let digit = u64::from(byte - b'0');
        if (limit - digit) / 10 < value {
            return None;
        }
        value = value * 10 + digit;
    }
    Some(value)
}

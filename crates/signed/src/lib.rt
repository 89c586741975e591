// Signed numbers: how much later one time is than another, a time so much later, a number without its sign, and one in offset binary.
// Only this crate has signed arithmetic.
#![tactic(auto)]

ghost use Rattle.std.specs.Prelude.{◌≡◌, true, ◌^◌, ◌<◌, nat_abs};
ghost use Rattle.std.specs.Int.Signed.{le_z, mag};
ghost use Rattle.base.specs.Signed.{ordinal as ordinal_of, later as later_of, elapsed as elapsed_of};

// How much later `to` is than `from`.
#[tactic(auto, unfolding(base::specs::Signed::elapsed))]
pub fn elapsed(from: i64, to: i64) -> u64
    requires { le_z from to ≡ true }
    ensures { result ≡ elapsed_of from to }
{
    to.abs_diff(from)
}

// `distance` after `time`.
#[tactic(auto, using(crate::proofs::Words::sum_later))]
pub fn later(time: i64, distance: u64) -> i64
    requires { mag (later_of time distance) < 2 ^ 63 }
    ensures { result ≡ later_of time distance }
{
    time.wrapping_add_unsigned(distance)
}

// The number without its sign.
pub fn magnitude(x: i64) -> u64
    ensures { result ≡ nat_abs x }
{
    x.unsigned_abs()
}

// The distance from the least i64.
#[tactic(auto, using(crate::proofs::Words::from_least))]
pub fn ordinal(x: i64) -> u64
    ensures { result ≡ ordinal_of (2 ^ 63) x }
{
    x.abs_diff(i64::MIN)
}

#[tactic(auto, using(crate::proofs::Words::sum_ordinal))]
pub fn from_ordinal(k: u64) -> i64
    ensures { ordinal_of (2 ^ 63) result ≡ k }
{
    i64::MIN.wrapping_add_unsigned(k)
}

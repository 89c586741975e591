// Exact products of two words, and what is asked of them.
#![tactic(auto)]

ghost use Rattle.std.specs.Prelude.{◌≡◌, ◌+◌, ◌-◌, ◌*◌, ◌/◌, ◌%◌, ◌^◌, min, leb};

pub fn product(a: u64, b: u64) -> u128
    ensures { result ≡ a * b }
{
    u128::from(a) * u128::from(b)
}

// The upper word of `a * b`.
pub fn high(a: u64, b: u64) -> u64
    ensures { result ≡ a * b / 2 ^ 64 }
{
    (product(a, b) >> 64) as u64
}

// The lower word of `a * b`.
pub fn low(a: u64, b: u64) -> u64
    ensures { result ≡ a * b % 2 ^ 64 }
{
    a.wrapping_mul(b)
}

pub fn product_at_most(a: u64, b: u64, c: u64, d: u64) -> bool
    ensures { result ≡ leb (a * b) (c * d) }
{
    product(a, b) <= product(c, d)
}

// The product, or `cap` where the product is above it.
pub fn mul_capped(a: u64, b: u64, cap: u64) -> u64
    ensures { result ≡ min (a * b) cap }
{
    mul_add_capped(a, b, 0, cap)
}

// The product and `c`, or `cap` where they are above it.
pub fn mul_add_capped(a: u64, b: u64, c: u64, cap: u64) -> u64
    ensures { result ≡ min (a * b + c) cap }
{
    (product(a, b) + u128::from(c)).min(u128::from(cap)) as u64
}

// `a - b`, or 0 where b is above it.
pub fn less(a: u64, b: u64) -> u64
    ensures { result ≡ a - b }
{
    a.saturating_sub(b)
}

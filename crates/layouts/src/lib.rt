// The layout check, with the two numbers that other tables and calls need of a layout.
#![tactic(auto)]

ghost use Rattle.std.specs.Prelude.{◌≡◌, ◌≤◌, ◌*◌, ◌↔◌, min, drop, fold, All, IsTrue};
ghost use Rattle.layouts.specs.Measure.{measure_of, head_ok, measured_by};
ghost use Rattle.rules.specs.Answer.{answer_of};

use rules::{Layout, Refusal};
use wide::mul_capped;

pub mod limits;

// Of an accepted layout: the product of its moduli P, and the unit 1,000×MSF by which a rate is divided.
#[derive(Clone, Copy)]
pub struct Measured {
    pub product: u64,
    pub unit: u64,
}

pub fn measure(layout: Layout) -> Result<Measured, Refusal>
    ensures { answer_of result ≡ measure_of layout }
{
    let n = layout.n;
    if !head_ok(n, layout.delimiter) || !all_at_most(&layout.offsets[..n], Layout::LARGEST_OFFSET) {
        return Err(Refusal::Layout);
    }
    let msf = product_capped(&layout.moduli[..n], Layout::LARGEST_MSF + 1);
    measure_moduli(layout.moduli[0], msf)
}

// Whether n and the delimiter's code are within their limits.
#[tactic(auto, unfolding(crate::specs::Measure::head_ok, base::specs::Scans::all_of))]
pub fn head_ok(n: usize, delimiter: u8) -> bool
    ensures { result ≡ head_ok n delimiter }
{
    1 <= n && n <= Layout::MOST_FIELDS && 1 <= delimiter && delimiter <= limits::LAST_DELIMITER
}

// By the first modulus and the product of the others.
#[tactic(auto, unfolding(crate::specs::Measure::measured_by, rules::specs::Answer::unless, base::specs::Scans::all_of))]
pub fn measure_moduli(first: u64, msf: u64) -> Result<Measured, Refusal>
    ensures { answer_of result ≡ measured_by first msf }
{
    if Layout::LARGEST_MSF < msf {
        return Err(Refusal::Layout);
    }
    let product = mul_capped(first, msf, Layout::LARGEST_P + 1);
    if Layout::LARGEST_P < product || product < 1 {
        return Err(Refusal::Layout);
    }
    Ok(Measured {
        product,
        unit: limits::PICOSECONDS * msf,
    })
}

// Whether each number is at most `limit`.
fn all_at_most(xs: &[u64], limit: u64) -> bool
    ensures { IsTrue result ↔ All (λ x. x ≤ limit) xs.now }
{
    xs.iter().all(|&x| x <= limit)
}

// The product of the numbers but the first, or `cap` where it is above that.
fn product_capped(xs: &[u64], cap: u64) -> u64
    ensures { result ≡ fold (λ a x. min (a * x) cap) 1 (drop 1 xs.now) }
{
    xs.iter().skip(1).fold(1, |acc, &x| mul_capped(acc, x, cap))
}

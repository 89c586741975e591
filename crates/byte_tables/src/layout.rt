// The layout that numbers and two lists in bytes make: n fields, of each list its first n numbers.
ghost use Rattle.std.specs.Prelude.{◌≡◌, ◌≤◌, min, leb, length, take, drop};
ghost use Rattle.base.specs.Scans.{all, product};
ghost use Rattle.rules.specs.Limits.{most_fields};
ghost use Rattle.layouts.specs.Measure.{measure_of};
ghost use Rattle.c_rules.specs.Numbers.{numbers};
ghost use Rattle.c_rules.specs.Tables.{slots, fields_given, code_given, layout_from};
ghost use Rattle.rules.specs.Answer.{answer_of};

use byte_lists::{number_at, rows, slot};
use layouts::limits::LAST_DELIMITER;
use layouts::{Measured, head_ok, measure_moduli};
use rules::{Layout, Refusal};
use wide::mul_capped;

pub fn layout_of(n: u64, delimiter: u64, moduli: &[u8], offsets: &[u8]) -> Layout
    ensures { result ≡ layout_from n delimiter moduli.now offsets.now }
{
    let fields = fields_given(n, moduli, offsets);
    Layout {
        n: fields,
        moduli: slots_of(moduli, fields),
        offsets: slots_of(offsets, fields),
        delimiter: code_given(delimiter),
    }
}

// The measure of that layout, without the layout: no more than its numbers is read.
pub fn measure_of(
    n: u64,
    delimiter: u64,
    moduli: &[u8],
    offsets: &[u8],
) -> Result<Measured, Refusal>
    ensures { answer_of result ≡ measure_of (layout_from n delimiter moduli.now offsets.now) }
{
    let fields = fields_given(n, moduli, offsets);
    if !head_ok(fields, code_given(delimiter)) {
        return Err(Refusal::Layout);
    }
    if !all_at_most(offsets, fields, Layout::LARGEST_OFFSET) {
        return Err(Refusal::Layout);
    }
    let msf = product_capped(moduli, fields, Layout::LARGEST_MSF + 1);
    measure_moduli(number_at(moduli, 0), msf)
}

// Whether each of the first `n` numbers is at most `limit`.
fn all_at_most(s: &[u8], n: usize, limit: u64) -> bool
    requires { n ≤ length (numbers s.now) }
    ensures { result ≡ all (λ x. leb x limit) (take n (numbers s.now)) }
{
    for i in 0..n {
        if limit < number_at(s, i) {
            return false;
        }
    }
    true
}

// The product of the first `n` numbers but the first, or `cap` where it is above that.
fn product_capped(s: &[u8], n: usize, cap: u64) -> u64
    requires { (1 ≤ n) × (n ≤ length (numbers s.now)) × (1 ≤ cap) }
    ensures { result ≡ min (product (drop 1 (take n (numbers s.now)))) cap }
{
    let mut acc: u64 = 1;
    for i in 1..n {
        acc = mul_capped(acc, number_at(s, i), cap);
    }
    acc
}

// n, or none where a list has fewer numbers.
#[tactic(auto, using(c_rules::proofs::Bytes::length_numbers), unfolding(c_rules::specs::Tables::fields_given))]
fn fields_given(n: u64, moduli: &[u8], offsets: &[u8]) -> usize
    ensures { result ≡ fields_given n moduli.now offsets.now }
{
    if n <= rows(moduli) as u64 && n <= rows(offsets) as u64 {
        n as usize
    } else {
        0
    }
}

// A list's first `n` numbers, at most ten, and 0 behind them.
fn slots_of(s: &[u8], n: usize) -> [u64; Layout::MOST_FIELDS]
    requires { n ≤ length (numbers s.now) }
    ensures { result ≡ slots most_fields (take n (numbers s.now)) }
{
    [
        slot(s, n, 0),
        slot(s, n, 1),
        slot(s, n, 2),
        slot(s, n, 3),
        slot(s, n, 4),
        slot(s, n, 5),
        slot(s, n, 6),
        slot(s, n, 7),
        slot(s, n, 8),
        slot(s, n, 9),
    ]
}

// The code, or 0 for a number that is none.
#[tactic(auto, unfolding(c_rules::specs::Tables::code_given))]
fn code_given(delimiter: u64) -> u8
    ensures { result ≡ code_given delimiter }
{
    if delimiter <= LAST_DELIMITER as u64 {
        delimiter as u8
    } else {
        0
    }
}

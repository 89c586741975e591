// The partition check, with the total.
#![tactic(auto)]

ghost use Rattle.std.specs.Prelude.{◌≡◌, ◌≤◌, min};
ghost use Rattle.rules.specs.Limits.{largest_total};
ghost use Rattle.rules.specs.Partitions.{partitions};
ghost use Rattle.partitions.specs.Total.{accepted_total, lengths_ok, row_ok};
ghost use Rattle.rules.specs.Answer.{answer_of};

use layouts::limits::MOST_PARTITIONS;
use rules::{Layout, Refusal};

// `product` is the P of the layout. Wrong lengths come first; then the first row that breaks a rule.
pub fn check(product: u64, starts: &[u64], ends: &[u64]) -> Result<u64, Refusal>
    ensures { answer_of result ≡ accepted_total product (partitions starts.now ends.now) }
{
    let n = starts.len();
    if !lengths_ok(n, ends.len()) {
        return Err(Refusal::Partitions {
            row: shortest(n, ends.len()),
        });
    }
    let mut total: u64 = 0;
    for i in 0..n {
        let start = starts[i];
        let end = ends[i];
        if !row_ok(product, total, start, end) {
            return Err(Refusal::Partitions { row: i });
        }
        total += end - start;
    }
    Ok(total)
}

// Whether the lists are of one length, neither empty nor too long.
#[tactic(auto, unfolding(crate::specs::Total::lengths_ok, base::specs::Scans::all_of))]
pub fn lengths_ok(starts: usize, ends: usize) -> bool
    ensures { result ≡ lengths_ok starts ends }
{
    ends == starts && 1 <= starts && starts <= MOST_PARTITIONS
}

pub fn shortest(starts: usize, ends: usize) -> usize
    ensures { result ≡ min starts ends }
{
    starts.min(ends)
}

// What one row must meet; `total` is the sum of the lengths before it.
#[tactic(auto, unfolding(crate::specs::Total::row_ok, base::specs::Scans::all_of))]
pub fn row_ok(product: u64, total: u64, start: u64, end: u64) -> bool
    requires { total ≤ largest_total }
    ensures { result ≡ row_ok product total start end }
{
    start < end && end < product && end - start <= Layout::LARGEST_P - total
}

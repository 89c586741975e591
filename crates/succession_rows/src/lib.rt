// What a newer table keeps of an older one, part by part: how many rows at the front are as they must be.
#![tactic(auto)]

ghost use Rattle.std.specs.Prelude.{◌≡◌, [], ◌∷◌, ◌≤◌, min, eqb, length, take};
ghost use Rattle.base.specs.Scans.{all_of};
ghost use Rattle.rules.specs.Limits.{most_fields, most_segments};
ghost use Rattle.rules.specs.Partitions.{partitions};
ghost use Rattle.rules.specs.Segments.{segments, steps_back_at};
ghost use Rattle.segments.specs.Rows.{Rising};
ghost use Rattle.versions.specs.Equal.{same};
ghost use Rattle.succession_rules.specs.Kept.{row_or, same_layout, end_kept, partition_lost, same_segment, further_low};
ghost use Rattle.succession_rules.specs.Horizon.{shared_rows, begins_at, agree_below};
ghost use Rattle.succession_rows.specs.Lists.{OneLength};

use rules::Layout;
use segments::row::{overtakes, row_at};

// Whether the two layouts are one.
#[tactic(auto, using(crate::proofs::Layouts::layout_tests))]
pub fn same_layout(older: Layout, newer: Layout) -> bool
    requires { older.n ≤ most_fields }
    ensures { result ≡ same_layout older newer }
{
    let n = older.n;
    newer.n == n
        && newer.moduli[..n] == older.moduli[..n]
        && newer.offsets[..n] == older.offsets[..n]
        && newer.delimiter == older.delimiter
}

// How many of the older's partitions at the front the newer keeps.
#[tactic(auto, using(crate::proofs::Scanned::start, crate::proofs::Scanned::next, crate::proofs::Scanned::stopped, crate::proofs::Scanned::ended), unfolding(succession_rules::specs::Kept::partition_lost, succession_rules::specs::Kept::partition_kept, base::specs::Scans::all_of))]
pub fn kept_partitions(
    older_starts: &[u64],
    older_ends: &[u64],
    starts: &[u64],
    ends: &[u64],
) -> usize
    requires one_length { OneLength older_starts.now older_ends.now }
    requires one_length_2 { OneLength starts.now ends.now }
    ensures { result ≡ row_or (length older_starts.now) (partition_lost (partitions older_starts.now older_ends.now) (partitions starts.now ends.now)) }
{
    let n = older_starts.len();
    for i in 0..n {
        if starts.len() <= i
            || !partition_kept(
                i + 1 < n,
                older_starts[i],
                older_ends[i],
                starts[i],
                ends[i],
            )
        {
            return i;
        }
    }
    n
}

// Whether a partition of the older has the start and the end in the newer that it must have; `more` says that it is not the older's last.
#[tactic(auto, unfolding(base::specs::Scans::all_of, succession_rules::specs::Kept::end_kept))]
fn partition_kept(more: bool, older_start: u64, older_end: u64, start: u64, end: u64) -> bool
    ensures { result ≡ all_of (eqb start older_start ∷ end_kept more older_end end ∷ []) }
{
    start == older_start
        && if more {
            end == older_end
        } else {
            older_end <= end
        }
}

// How many of the older's segments at the front the newer keeps: the first row in which the two differ.
#[tactic(auto, using(crate::proofs::Scanned::start, crate::proofs::Scanned::next, crate::proofs::Scanned::stopped, crate::proofs::Scanned::ended, crate::proofs::Segments::row_in, crate::proofs::Segments::segment_tests), unfolding(succession_rules::specs::Horizon::shared_rows, succession_rules::specs::Kept::segment_lost, succession_rules::specs::Kept::segment_kept, base::specs::Scans::all_of))]
pub fn shared_rows(
    older_counts: &[u64],
    older_times: &[i64],
    older_rates: &[u64],
    counts: &[u64],
    times: &[i64],
    rates: &[u64],
) -> usize
    requires rising { Rising (segments older_counts.now older_times.now older_rates.now) }
    requires rising_2 { Rising (segments counts.now times.now rates.now) }
    ensures { result ≡ shared_rows (segments older_counts.now older_times.now older_rates.now) (segments counts.now times.now rates.now) }
{
    let n = older_counts.len();
    for i in 0..n {
        if counts.len() <= i
            || row_at(counts, times, rates, i)
                != row_at(older_counts, older_times, older_rates, i)
        {
            return i;
        }
    }
    n
}

// The first further row, after `kept` rows, whose count is not above `total`, or the number of rows.
#[tactic(auto, using(crate::proofs::Segments::above_start, crate::proofs::Scanned::next, crate::proofs::Scanned::stopped, crate::proofs::Scanned::ended), unfolding(succession_rules::specs::Kept::further_low, succession_rules::specs::Kept::further_above))]
pub fn further_low(total: u64, kept: usize, counts: &[u64]) -> usize
    requires { kept ≤ length counts.now }
    ensures { result ≡ row_or (length counts.now) (further_low total kept counts.now) }
{
    let n = counts.len();
    for i in kept..n {
        if counts[i] <= total {
            return i;
        }
    }
    n
}

// Whether the line of row `i`, rounded up, at the next row's count is later than the next row's time.
#[tactic(auto, using(crate::proofs::Segments::row_in, crate::proofs::Segments::times_up), unfolding(rules::specs::Segments::steps_back_at))]
pub fn steps_back_at(unit: u64, counts: &[u64], times: &[i64], rates: &[u64], i: usize) -> bool
    requires le_unit { (1 ≤ unit) × (i ≤ most_segments) }
    requires rising { Rising (segments counts.now times.now rates.now) }
    ensures { result ≡ steps_back_at unit (segments counts.now times.now rates.now) i }
{
    i + 1 < counts.len()
        && overtakes(
            unit,
            row_at(counts, times, rates, i),
            row_at(counts, times, rates, i + 1),
        )
}

// The count below which two lists of segments agree; `total` is the older's.
#[tactic(auto, unfolding(succession_rules::specs::Horizon::agree_below))]
pub fn agree_below(
    total: u64,
    older_counts: &[u64],
    older_times: &[i64],
    older_rates: &[u64],
    counts: &[u64],
    times: &[i64],
    rates: &[u64],
) -> u64
    requires rising { Rising (segments older_counts.now older_times.now older_rates.now) }
    requires rising_2 { Rising (segments counts.now times.now rates.now) }
    ensures { result ≡ agree_below total (segments older_counts.now older_times.now older_rates.now) (segments counts.now times.now rates.now) }
{
    let i = shared_rows(older_counts, older_times, older_rates, counts, times, rates);
    let first = begins_at(total, older_counts, i).min(begins_at(total, counts, i));
    total.min(first)
}

// The count of row `i`, or `total` where there is none.
#[tactic(auto, unfolding(succession_rules::specs::Horizon::begins_at))]
fn begins_at(total: u64, counts: &[u64], i: usize) -> u64
    ensures { result ≡ begins_at total counts.now i }
{
    match counts.get(i) {
        Some(&count) => count,
        None => total,
    }
}

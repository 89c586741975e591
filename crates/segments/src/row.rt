// One row of a segment list by value, and what it must meet. No division:
// a line that is rounded up, ceil(x / unit), is at most k exactly where x is at most k * unit.
ghost use Rattle.std.specs.Prelude.{◌≡◌, true, ◌&&◌, ◌≤◌, leb};
ghost use Rattle.std.proofs.Math.Option.{some};
ghost use Rattle.std.specs.Int.Signed.{le_z};
ghost use Rattle.rules.specs.Segments.{segments, row_of, row_ok, follows, line_ok, overtakes as overtakes_next};
ghost use Rattle.segments.specs.Rows.{RowIn};

use layouts::limits::{EARLIEST_TIME, LARGEST_RATE, LATEST_TIME};
use rules::Segment;
use wide::product_at_most;

// Row `i` of the lists.
pub fn row_at(counts: &[u64], times: &[i64], rates: &[u64], i: usize) -> Segment
    requires { RowIn (segments counts.now times.now rates.now) i }
    ensures { result ≡ row_of (segments counts.now times.now rates.now) i }
{
    Segment {
        count: counts[i],
        time: times[i],
        rate: rates[i],
    }
}

// What one row must meet by itself, and its line to its end.
pub fn row_ok(unit: u64, row: Segment, end: u64) -> bool
    requires { 1 ≤ unit }
    ensures { result ≡ (row_ok unit row && line_ok unit row end) }
{
    in_limits(unit, row) && line_ok(unit, row, end)
}

// The same of the last row, which ends at the total: its count is at most that.
pub fn last_row_ok(unit: u64, row: Segment, total: u64) -> bool
    requires { 1 ≤ unit }
    ensures { result ≡ ((row_ok unit row && line_ok unit row total) && leb row.count total) }
{
    row.count <= total && row_ok(unit, row, total)
}

// Time and rate are within their limits.
#[tactic(auto, unfolding(rules::specs::Segments::row_ok, base::specs::Scans::all_of))]
fn in_limits(unit: u64, row: Segment) -> bool
    ensures { result ≡ row_ok unit row }
{
    EARLIEST_TIME <= row.time
        && row.time <= LATEST_TIME
        && unit <= row.rate
        && row.rate <= LARGEST_RATE
}

// Count and time are after those of the row before.
#[tactic(auto, unfolding(rules::specs::Segments::follows, base::specs::Scans::all_of))]
pub fn grows(earlier: Segment, row: Segment) -> bool
    ensures { result ≡ follows (some earlier) row }
{
    earlier.count < row.count && earlier.time < row.time
}

// The line of a row within its limits is at most the latest time at the count `end`.
fn line_ok(unit: u64, row: Segment, end: u64) -> bool
    requires le_unit { 1 ≤ unit }
    requires row_value { row_ok unit row ≡ true }
    ensures { result ≡ line_ok unit row end }
{
    end <= row.count
        || product_at_most(
            row.rate,
            end - row.count,
            signed::elapsed(row.time, LATEST_TIME),
            unit,
        )
}

// Whether the line, rounded up, at the next row's count is later than the next row's time.
pub fn overtakes(unit: u64, row: Segment, next: Segment) -> bool
    requires le_unit { 1 ≤ unit }
    requires time_value { le_z row.time next.time ≡ true }
    ensures { result ≡ overtakes_next unit row next }
{
    !product_at_most(
        row.rate,
        next.count.saturating_sub(row.count),
        signed::elapsed(row.time, next.time),
        unit,
    )
}

// The segment check, and whether accepted segments step back: one pass over the rows each.
#![tactic(auto)]

ghost use Rattle.std.specs.Prelude.{◌≡◌, ◌≤◌, min};
ghost use Rattle.rules.specs.Segments.{segments, steps_back};
ghost use Rattle.segments.specs.Rows.{accepted_segments, lengths_ok, Rising};
ghost use Rattle.rules.specs.Answer.{answer_of};

use crate::row::{grows, last_row_ok, overtakes, row_at, row_ok};
use layouts::limits::MOST_SEGMENTS;
use rules::Refusal;

pub mod row;

// `unit` is the layout's 1,000×MSF, `total` that of the partitions. Wrong lengths come first; then the first row that breaks a rule.
// A row ends at the next one's count, the last at the total. Where two rows do not grow, the later one is refused.
pub fn check(
    unit: u64,
    total: u64,
    counts: &[u64],
    times: &[i64],
    rates: &[u64],
) -> Result<(), Refusal>
    requires { 1 ≤ unit }
    ensures { answer_of result ≡ accepted_segments unit total (segments counts.now times.now rates.now) }
{
    let n = counts.len();
    if !lengths_ok(n, times.len(), rates.len()) {
        let length = shortest(n, times.len(), rates.len());
        return Err(Refusal::Segments { row: length });
    }
    let last = n - 1;
    for i in 0..last {
        let row = row_at(counts, times, rates, i);
        let next = row_at(counts, times, rates, i + 1);
        if !row_ok(unit, row, next.count) {
            return Err(Refusal::Segments { row: i });
        }
        if !grows(row, next) {
            return Err(Refusal::Segments { row: i + 1 });
        }
    }
    if !last_row_ok(unit, row_at(counts, times, rates, last), total) {
        return Err(Refusal::Segments { row: last });
    }
    Ok(())
}

// Whether the lists are of one length, neither empty nor too long.
#[tactic(auto, unfolding(crate::specs::Rows::lengths_ok, base::specs::Scans::all_of))]
pub fn lengths_ok(counts: usize, times: usize, rates: usize) -> bool
    ensures { result ≡ lengths_ok counts times rates }
{
    times == counts && rates == counts && 1 <= counts && counts <= MOST_SEGMENTS
}

pub fn shortest(counts: usize, times: usize, rates: usize) -> usize
    ensures { result ≡ min counts (min times rates) }
{
    counts.min(times.min(rates))
}

// Whether some line, rounded up, at the next segment's count is later than the next segment's time.
pub fn steps_back(unit: u64, counts: &[u64], times: &[i64], rates: &[u64]) -> bool
    requires le_unit { 1 ≤ unit }
    requires rising { Rising (segments counts.now times.now rates.now) }
    ensures { result ≡ steps_back unit (segments counts.now times.now rates.now) }
{
    let last = counts.len() - 1;
    let mut row = row_at(counts, times, rates, 0);
    for i in 0..last {
        let next = row_at(counts, times, rates, i + 1);
        if overtakes(unit, row, next) {
            return true;
        }
        row = next;
    }
    false
}

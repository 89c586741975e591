// The two conversions within accepted segments.
#![tactic(auto)]

ghost use Rattle.std.specs.Prelude.{◌≡◌, ◌&&◌, ◌^◌, ◌<◌, min};
ghost use Rattle.std.specs.Int.Signed.{le_z};
ghost use Rattle.rules.specs.Limits.{earliest_time, latest_time};
ghost use Rattle.rules.specs.Answer.{time_of_count, answer_of};
ghost use Rattle.rules.specs.Segments.{segments, line_at};
ghost use Rattle.rules.specs.Facts.{SegmentsFacts};
ghost use Rattle.rules.specs.Time.{line_count, not_beyond, time_in, count_in};
ghost use Rattle.tables.specs.Accept.{BasisFacts};
ghost use Rattle.segment_line.specs.Line.{ToTime, ToTicks};
ghost use Rattle.conversion.specs.LastCount.{HasCount, last_count};

use layouts::limits::{EARLIEST_TIME, LATEST_TIME};
use rules::{CountAtTime, Refusal, Segment, TimeOfCount};
use segment_line::{ticks_on, time_on};
use segment_search::{row_of_count, row_of_time};
use segments::row::row_at;

pub fn time_within(
    unit: u64,
    total: u64,
    counts: &[u64],
    times: &[i64],
    rates: &[u64],
    e: u64,
) -> Result<TimeOfCount, Refusal>
    requires basis_facts { BasisFacts unit total }
    requires segments_facts { SegmentsFacts unit total (segments counts.now times.now rates.now) }
    ensures { answer_of result ≡ time_in unit total (segments counts.now times.now rates.now) e }
{
    if total < e {
        return Err(Refusal::BeyondTotal);
    }
    let Some(i) = row_of_count(counts, e) else {
        return Err(Refusal::BeforeFirstSegment);
    };
    Ok(time_of_row(unit, row_at(counts, times, rates, i), e))
}

pub fn count_within(
    unit: u64,
    total: u64,
    counts: &[u64],
    times: &[i64],
    rates: &[u64],
    t: i64,
) -> Result<CountAtTime, Refusal>
    requires basis_facts { BasisFacts unit total }
    requires segments_facts { SegmentsFacts unit total (segments counts.now times.now rates.now) }
    ensures { answer_of result ≡ count_in unit total (segments counts.now times.now rates.now) t }
{
    if !in_range(t) {
        return Err(Refusal::TimeOutOfRange);
    }
    let Some(i) = row_of_time(times, t) else {
        return Err(Refusal::BeforeFirstSegment);
    };
    count_of_row(
        unit,
        total,
        row_at(counts, times, rates, i),
        last_count(counts, i),
        t,
    )
}

// What the count `e` gives on its row.
pub fn time_of_row(unit: u64, row: Segment, e: u64) -> TimeOfCount
    requires { ToTime unit row e }
    ensures { result ≡ time_of_count (line_at unit row e) }
{
    TimeOfCount {
        time: time_on(unit, row, e),
    }
}

// What the time `t` gives on its row, whose last count is `last`.
pub fn count_of_row(
    unit: u64,
    total: u64,
    row: Segment,
    last: u64,
    t: i64,
) -> Result<CountAtTime, Refusal>
    requires to_ticks { ToTicks unit row t }
    requires t_bound { line_count unit row t < 2 ^ 64 }
    ensures { answer_of result ≡ not_beyond total (min (line_count unit row t) last) }
{
    let reached = row.count + ticks_on(unit, row, t);
    not_beyond(total, reached.min(last))
}

pub fn in_range(t: i64) -> bool
    ensures { result ≡ (le_z earliest_time t && le_z t latest_time) }
{
    EARLIEST_TIME <= t && t <= LATEST_TIME
}

// The last count of row `i`: the one before the next row's, or the greatest number there is.
fn last_count(counts: &[u64], i: usize) -> u64
    requires { HasCount counts.now i }
    ensures { result ≡ last_count counts.now i }
{
    if i + 1 < counts.len() {
        return counts[i + 1] - 1;
    }
    u64::MAX
}

#[tactic(auto, unfolding(rules::specs::Time::not_beyond, rules::specs::Answer::unless))]
fn not_beyond(total: u64, count: u64) -> Result<CountAtTime, Refusal>
    ensures { answer_of result ≡ not_beyond total count }
{
    if total < count {
        return Err(Refusal::TimeOutOfRange);
    }
    Ok(CountAtTime { count })
}

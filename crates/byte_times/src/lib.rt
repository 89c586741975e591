// Count to time and time to count under tables that lie in bytes. The layout is measured and not made; a row's line is told by the functions that lists of numbers
// use; only the loops that fetch a row are here.
#![tactic(auto)]

ghost use Rattle.std.specs.Prelude.{◌≡◌};
ghost use Rattle.rules.specs.Facts.{SegmentsFacts};
ghost use Rattle.rules.specs.Time.{segment_of, segment_at, time_in, count_in, time_of, count_at};
ghost use Rattle.tables.specs.Accept.{BasisFacts};
ghost use Rattle.segment_search.specs.Found.{found};
ghost use Rattle.segment_search.specs.Growing.{CountsGrow, TimesGrow};
ghost use Rattle.conversion.specs.LastCount.{HasCount, last_count};
ghost use Rattle.c_rules.specs.Numbers.{numbers};
ghost use Rattle.c_rules.specs.Numbers.{times as times_in};
ghost use Rattle.c_rules.specs.Tables.{layout_from, partitions_from, segments_from};
ghost use Rattle.rules.specs.Answer.{answer_of};

use byte_lists::{number_at, rows, time_at};
use byte_tables::layout::measure_of;
use byte_tables::{accept, row_at};
use conversion::{count_of_row, in_range, time_of_row};
use rules::{CountAtTime, Refusal, TimeOfCount};
use segment_search::last_of;

// The time of an encoded count.
#[tactic(auto, using(layouts::proofs::Units::measured_in_limits))]
pub fn time_of(
    n: u64,
    delimiter: u64,
    moduli: &[u8],
    offsets: &[u8],
    starts: &[u8],
    ends: &[u8],
    counts: &[u8],
    times: &[u8],
    rates: &[u8],
    encoded: u64,
) -> Result<TimeOfCount, Refusal>
    ensures { answer_of result ≡ time_of (layout_from n delimiter moduli.now offsets.now) (partitions_from starts.now ends.now) (segments_from counts.now times.now rates.now) encoded }
{
    let b = accept(
        measure_of(n, delimiter, moduli, offsets),
        starts,
        ends,
        counts,
        times,
        rates,
    )?;
    time_within(b.unit, b.total, counts, times, rates, encoded)
}

// The count at a time.
#[tactic(auto, using(layouts::proofs::Units::measured_in_limits))]
pub fn count_at(
    n: u64,
    delimiter: u64,
    moduli: &[u8],
    offsets: &[u8],
    starts: &[u8],
    ends: &[u8],
    counts: &[u8],
    times: &[u8],
    rates: &[u8],
    time: i64,
) -> Result<CountAtTime, Refusal>
    ensures { answer_of result ≡ count_at (layout_from n delimiter moduli.now offsets.now) (partitions_from starts.now ends.now) (segments_from counts.now times.now rates.now) time }
{
    let b = accept(
        measure_of(n, delimiter, moduli, offsets),
        starts,
        ends,
        counts,
        times,
        rates,
    )?;
    count_within(b.unit, b.total, counts, times, rates, time)
}

fn time_within(
    unit: u64,
    total: u64,
    counts: &[u8],
    times: &[u8],
    rates: &[u8],
    e: u64,
) -> Result<TimeOfCount, Refusal>
    requires basis_facts { BasisFacts unit total }
    requires segments_facts { SegmentsFacts unit total (segments_from counts.now times.now rates.now) }
    ensures { answer_of result ≡ time_in unit total (segments_from counts.now times.now rates.now) e }
{
    if total < e {
        return Err(Refusal::BeyondTotal);
    }
    match row_of_count(counts, e) {
        Some(i) => Ok(time_of_row(unit, row_at(counts, times, rates, i), e)),
        None => Err(Refusal::BeforeFirstSegment),
    }
}

fn count_within(
    unit: u64,
    total: u64,
    counts: &[u8],
    times: &[u8],
    rates: &[u8],
    t: i64,
) -> Result<CountAtTime, Refusal>
    requires basis_facts { BasisFacts unit total }
    requires segments_facts { SegmentsFacts unit total (segments_from counts.now times.now rates.now) }
    ensures { answer_of result ≡ count_in unit total (segments_from counts.now times.now rates.now) t }
{
    if !in_range(t) {
        return Err(Refusal::TimeOutOfRange);
    }
    match row_of_time(times, t) {
        Some(i) => count_of_row(
            unit,
            total,
            row_at(counts, times, rates, i),
            last_count(counts, i),
            t,
        ),
        None => Err(Refusal::BeforeFirstSegment),
    }
}

fn row_of_count(counts: &[u8], e: u64) -> Option<usize>
    requires { CountsGrow (numbers counts.now) }
    ensures { found result ≡ segment_of (numbers counts.now) e }
{
    let mut low = 0;
    let mut high = rows(counts);
    while low < high {
        let middle = low + (high - low) / 2;
        if e < number_at(counts, middle) {
            high = middle;
        } else {
            low = middle + 1;
        }
    }
    last_of(low)
}

fn row_of_time(times: &[u8], t: i64) -> Option<usize>
    requires { TimesGrow (times_in times.now) }
    ensures { found result ≡ segment_at (times_in times.now) t }
{
    let mut low = 0;
    let mut high = rows(times);
    while low < high {
        let middle = low + (high - low) / 2;
        if t < time_at(times, middle) {
            high = middle;
        } else {
            low = middle + 1;
        }
    }
    last_of(low)
}

// The last count of row `i`: the one before the next row's, or the greatest number there is.
fn last_count(counts: &[u8], i: usize) -> u64
    requires { HasCount (numbers counts.now) i }
    ensures { result ≡ last_count (numbers counts.now) i }
{
    let n = rows(counts);
    if i + 1 < n {
        return number_at(counts, i + 1) - 1;
    }
    u64::MAX
}

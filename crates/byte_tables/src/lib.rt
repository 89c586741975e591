// Tables that lie in bytes: the layout they make, and whether they are accepted. What a row must meet is told by the functions
// that lists of numbers are checked by; only the loops that fetch a row are here.
#![tactic(auto)]

ghost use Rattle.std.specs.Prelude.{◌≡◌, ◌≤◌};
ghost use Rattle.rules.specs.Answer.{and_then, answer_of};
ghost use Rattle.rules.specs.Segments.{row_of};
ghost use Rattle.layouts.specs.Measure.{InLimits};
ghost use Rattle.partitions.specs.Total.{accepted_total};
ghost use Rattle.segments.specs.Rows.{accepted_segments, RowIn};
ghost use Rattle.tables.specs.Accept.{stamps_basis, table_basis};
ghost use Rattle.c_rules.specs.Tables.{partitions_from, segments_from};

use byte_lists::{number_at, rows, time_at};
use layouts::Measured;
use rules::{Refusal, Segment};
use segments::row::{grows, last_row_ok, row_ok};
use tables::Basis;

pub mod layout;

// Layout and partitions.
#[tactic(auto, unfolding(tables::specs::Accept::stamps_basis, partitions::specs::Total::accepted_total, rules::specs::Answer::and_then, rules::specs::Answer::unless_at))]
pub fn accept_stamps(
    measured: Result<Measured, Refusal>,
    starts: &[u8],
    ends: &[u8],
) -> Result<Basis, Refusal>
    ensures { answer_of result ≡ and_then (answer_of measured) (stamps_basis (partitions_from starts.now ends.now)) }
{
    let m = measured?;
    let total = check_partitions(m.product, starts, ends)?;
    Ok(Basis {
        unit: m.unit,
        total,
    })
}

// Layout, partitions and segments.
#[tactic(auto, unfolding(tables::specs::Accept::table_basis, segments::specs::Rows::accepted_segments, rules::specs::Answer::and_then, rules::specs::Answer::unless_at))]
pub fn accept(
    measured: Result<Measured, Refusal>,
    starts: &[u8],
    ends: &[u8],
    counts: &[u8],
    times: &[u8],
    rates: &[u8],
) -> Result<Basis, Refusal>
    requires { InLimits measured }
    ensures { answer_of result ≡ and_then (answer_of measured) (table_basis (partitions_from starts.now ends.now) (segments_from counts.now times.now rates.now)) }
{
    let b = accept_stamps(measured, starts, ends)?;
    check_segments(b.unit, b.total, counts, times, rates)?;
    Ok(b)
}

fn check_partitions(product: u64, starts: &[u8], ends: &[u8]) -> Result<u64, Refusal>
    ensures { answer_of result ≡ accepted_total product (partitions_from starts.now ends.now) }
{
    let n = rows(starts);
    let m = rows(ends);
    if !partitions::lengths_ok(n, m) {
        return Err(Refusal::Partitions {
            row: partitions::shortest(n, m),
        });
    }
    let mut total: u64 = 0;
    for i in 0..n {
        let start = number_at(starts, i);
        let end = number_at(ends, i);
        if !partitions::row_ok(product, total, start, end) {
            return Err(Refusal::Partitions { row: i });
        }
        total += end - start;
    }
    Ok(total)
}

fn check_segments(
    unit: u64,
    total: u64,
    counts: &[u8],
    times: &[u8],
    rates: &[u8],
) -> Result<(), Refusal>
    requires { 1 ≤ unit }
    ensures { answer_of result ≡ accepted_segments unit total (segments_from counts.now times.now rates.now) }
{
    let n = rows(counts);
    let m = rows(times);
    let k = rows(rates);
    if !segments::lengths_ok(n, m, k) {
        return Err(Refusal::Segments {
            row: segments::shortest(n, m, k),
        });
    }
    let last = n - 1;
    for i in 0..last {
        let row = row_at(counts, times, rates, i);
        let next = row_at(counts, times, rates, i + 1);
        if !row_ok(unit, row, next.count) {
            return Err(Refusal::Segments { row: i });
        }
        if !grows(row, next) {
            return Err(Refusal::Segments { row: i + 1 });
        }
    }
    if !last_row_ok(unit, row_at(counts, times, rates, last), total) {
        return Err(Refusal::Segments { row: last });
    }
    Ok(())
}

// Row `i` of the lists.
pub fn row_at(counts: &[u8], times: &[u8], rates: &[u8], i: usize) -> Segment
    requires { RowIn (segments_from counts.now times.now rates.now) i }
    ensures { result ≡ row_of (segments_from counts.now times.now rates.now) i }
{
    Segment {
        count: number_at(counts, i),
        time: time_at(times, i),
        rate: number_at(rates, i),
    }
}

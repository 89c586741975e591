// Count to time and time to count.
#![tactic(auto)]

ghost use Rattle.std.specs.Prelude.{◌≡◌};
ghost use Rattle.rules.specs.Partitions.{partitions};
ghost use Rattle.rules.specs.Segments.{segments};
ghost use Rattle.rules.specs.Time.{time_of, count_at};
ghost use Rattle.rules.specs.Answer.{answer_of};

use conversion::{count_within, time_within};
use layouts::measure;
use rules::{CountAtTime, Layout, Refusal, TimeOfCount};
use tables::accept;

// The time of an encoded count.
#[tactic(auto, using(layouts::proofs::Units::measured_in_limits))]
pub fn time_of(
    layout: Layout,
    starts: &[u64],
    ends: &[u64],
    counts: &[u64],
    times: &[i64],
    rates: &[u64],
    encoded: u64,
) -> Result<TimeOfCount, Refusal>
    ensures { answer_of result ≡ time_of layout (partitions starts.now ends.now) (segments counts.now times.now rates.now) encoded }
{
    let b = accept(measure(layout), starts, ends, counts, times, rates)?;
    time_within(b.unit, b.total, counts, times, rates, encoded)
}

// The count at a time.
#[tactic(auto, using(layouts::proofs::Units::measured_in_limits))]
pub fn count_at(
    layout: Layout,
    starts: &[u64],
    ends: &[u64],
    counts: &[u64],
    times: &[i64],
    rates: &[u64],
    time: i64,
) -> Result<CountAtTime, Refusal>
    ensures { answer_of result ≡ count_at layout (partitions starts.now ends.now) (segments counts.now times.now rates.now) time }
{
    let b = accept(measure(layout), starts, ends, counts, times, rates)?;
    count_within(b.unit, b.total, counts, times, rates, time)
}

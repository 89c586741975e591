// A stamp or a message to its encoded count and its time, with one check of each table.
#![tactic(auto)]

ghost use Rattle.std.specs.Prelude.{◌≡◌};
ghost use Rattle.rules.specs.Answer.{unless_at, answer_of};
ghost use Rattle.rules.specs.Partitions.{partitions};
ghost use Rattle.rules.specs.Segments.{segments, segments_fault};
ghost use Rattle.rules.specs.Time.{time_in};
ghost use Rattle.rules.specs.StampTime.{with_time, time_of_stamp, time_of_message};
ghost use Rattle.tables.specs.Accept.{BasisFacts};

use conversion::time_within;
use layouts::measure;
use message::{text_part, text_start};
use rules::{Layout, Refusal, TimedStamp};
use tables::accept_stamps;
use text::stamp_in;

// Segments are checked once the stamp is read, so a refusal of reading comes before 3.
pub fn time_of_stamp(
    layout: Layout,
    starts: &[u64],
    ends: &[u64],
    counts: &[u64],
    times: &[i64],
    rates: &[u64],
    text: &[u8],
) -> Result<TimedStamp, Refusal>
    ensures { answer_of result ≡ time_of_stamp layout (partitions starts.now ends.now) (segments counts.now times.now rates.now) text.now }
{
    let n = layout.n;
    let b = accept_stamps(measure(layout), starts, ends)?;
    let reading = stamp_in(&layout.moduli, &layout.offsets, n, starts, ends, text)?;
    timed(b.unit, b.total, counts, times, rates, reading.count)
}

// A message likewise; what the message refuses comes first.
pub fn time_of_message(
    layout: Layout,
    starts: &[u64],
    ends: &[u64],
    counts: &[u64],
    times: &[i64],
    rates: &[u64],
    message: &[u8],
) -> Result<TimedStamp, Refusal>
    ensures { answer_of result ≡ time_of_message layout (partitions starts.now ends.now) (segments counts.now times.now rates.now) message.now }
{
    let start = text_start(message)?;
    let text = text_part(message, start);
    time_of_stamp(layout, starts, ends, counts, times, rates, text)
}

// An encoded count with its time.
fn timed(
    unit: u64,
    total: u64,
    counts: &[u64],
    times: &[i64],
    rates: &[u64],
    count: u64,
) -> Result<TimedStamp, Refusal>
    requires { BasisFacts unit total }
    ensures { answer_of result ≡ with_time count (unless_at 3 (segments_fault unit total (segments counts.now times.now rates.now)) (time_in unit total (segments counts.now times.now rates.now) count)) }
{
    segments::check(unit, total, counts, times, rates)?;
    let t = time_within(unit, total, counts, times, rates, count)?;
    Ok(TimedStamp {
        count,
        time: t.time,
    })
}

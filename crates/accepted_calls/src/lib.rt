// The calls under tables that were accepted before: each asks for them and answers as the public call does, without a check.
#![tactic(auto)]

ghost use Rattle.std.specs.Prelude.{◌≡◌, length};
ghost use Rattle.rules.specs.Partitions.{partitions};
ghost use Rattle.rules.specs.Segments.{segments};
ghost use Rattle.rules.specs.Print.{print_stamp};
ghost use Rattle.rules.specs.Time.{time_in, count_at};
ghost use Rattle.rules.specs.StampTime.{with_time, time_of_stamp, time_of_message};
ghost use Rattle.rules.specs.Facts.{SegmentsFacts};
ghost use Rattle.tables.specs.Accept.{BasisFacts, StampsFacts, TableFacts};
ghost use Rattle.buffer_print.specs.Printed.{Printed};
ghost use Rattle.rules.specs.Answer.{answer_of};

use conversion::{count_within, time_within};
use decode::decode;
use message::{text_part, text_start};
use print::stamp_at;
use rules::{CountAtTime, Layout, Refusal, TimedStamp};
use tables::Basis;
use text::stamp_in;

// A stamp to its encoded count and its time.
pub fn stamp_time(
    layout: Layout,
    basis: Basis,
    starts: &[u64],
    ends: &[u64],
    counts: &[u64],
    times: &[i64],
    rates: &[u64],
    text: &[u8],
) -> Result<TimedStamp, Refusal>
    requires { TableFacts layout (partitions starts.now ends.now) (segments counts.now times.now rates.now) basis }
    ensures { answer_of result ≡ time_of_stamp layout (partitions starts.now ends.now) (segments counts.now times.now rates.now) text.now }
{
    let r = stamp_in(
        &layout.moduli,
        &layout.offsets,
        layout.n,
        starts,
        ends,
        text,
    )?;
    timed(basis.unit, basis.total, counts, times, rates, r.count)
}

// A message likewise.
pub fn message_time(
    layout: Layout,
    basis: Basis,
    starts: &[u64],
    ends: &[u64],
    counts: &[u64],
    times: &[i64],
    rates: &[u64],
    message: &[u8],
) -> Result<TimedStamp, Refusal>
    requires { TableFacts layout (partitions starts.now ends.now) (segments counts.now times.now rates.now) basis }
    ensures { answer_of result ≡ time_of_message layout (partitions starts.now ends.now) (segments counts.now times.now rates.now) message.now }
{
    let start = text_start(message)?;
    let text = text_part(message, start);
    stamp_time(layout, basis, starts, ends, counts, times, rates, text)
}

// An encoded count with its time.
#[tactic(auto, unfolding(rules::specs::StampTime::with_time, rules::specs::Answer::and_then))]
fn timed(
    unit: u64,
    total: u64,
    counts: &[u64],
    times: &[i64],
    rates: &[u64],
    count: u64,
) -> Result<TimedStamp, Refusal>
    requires basis_facts { BasisFacts unit total }
    requires segments_facts { SegmentsFacts unit total (segments counts.now times.now rates.now) }
    ensures { answer_of result ≡ with_time count (time_in unit total (segments counts.now times.now rates.now) count) }
{
    let t = time_within(unit, total, counts, times, rates, count)?;
    Ok(TimedStamp {
        count,
        time: t.time,
    })
}

// An encoded count as a stamp, to the front of a lent buffer.
pub fn stamp_print(
    layout: Layout,
    basis: Basis,
    starts: &[u64],
    ends: &[u64],
    encoded: u64,
    buffer: &mut [u8],
) -> Result<usize, Refusal>
    requires { StampsFacts layout (partitions starts.now ends.now) basis }
    ensures { Printed (print_stamp layout (partitions starts.now ends.now) encoded (length buffer.old)) result buffer.old buffer.new }
{
    if basis.total < encoded {
        return Err(Refusal::BeyondTotal);
    }
    stamp_at(layout, decode(starts, ends, encoded), buffer)
}

// The count at a time.
pub fn time_count(
    layout: Layout,
    basis: Basis,
    starts: &[u64],
    ends: &[u64],
    counts: &[u64],
    times: &[i64],
    rates: &[u64],
    time: i64,
) -> Result<CountAtTime, Refusal>
    requires { TableFacts layout (partitions starts.now ends.now) (segments counts.now times.now rates.now) basis }
    ensures { answer_of result ≡ count_at layout (partitions starts.now ends.now) (segments counts.now times.now rates.now) time }
{
    count_within(basis.unit, basis.total, counts, times, rates, time)
}

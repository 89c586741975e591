// A raw counter's two calls: a reset to a partition's start, and a reading of its raw number. Both take the counter as it is
// and give it as it is afterwards.
#![tactic(auto)]

ghost use Rattle.std.specs.Prelude.{◌≡◌, ◌+◌, ◌-◌, ◌&&◌, length, nat_le};
ghost use Rattle.rules.specs.Answer.{answer, unless, answer_of};
ghost use Rattle.rules.specs.Partitions.{partitions, lengths_before};
ghost use Rattle.encode.specs.Listed.{Listed};
ghost use Rattle.raw_rules.specs.Counter.{raw_difference, reset_raw, not_past, read_raw, counter_after};

use encode::lengths_before;
use layouts::measure;
use raw_rules::{RawCounter, RawStep};
use rules::{Layout, Refusal};
use tables::accept_stamps;

// Starts again at the start of the partition with this number, from 1, where the satellite's counter shows `raw`.
pub fn reset_raw(
    layout: Layout,
    starts: &[u64],
    ends: &[u64],
    counter: RawCounter,
    number: u64,
    raw: u32,
) -> RawStep
    ensures answer_value { answer_of result.answer ≡ reset_raw layout (partitions starts.now ends.now) number }
    ensures next_value { result.next ≡ counter_after counter raw (reset_raw layout (partitions starts.now ends.now) number) }
{
    step(counter, raw, start_in(layout, starts, ends, number))
}

fn start_in(layout: Layout, starts: &[u64], ends: &[u64], number: u64) -> Result<u64, Refusal>
    ensures { answer_of result ≡ reset_raw layout (partitions starts.now ends.now) number }
{
    accept_stamps(measure(layout), starts, ends)?;
    start_of(starts, ends, number)
}

// Adds the ticks since the last accepted call: the satellite's counter shows `raw` now.
pub fn read_raw(
    layout: Layout,
    starts: &[u64],
    ends: &[u64],
    counter: RawCounter,
    raw: u32,
) -> RawStep
    ensures answer_value { answer_of result.answer ≡ read_raw layout (partitions starts.now ends.now) counter raw }
    ensures next_value { result.next ≡ counter_after counter raw (read_raw layout (partitions starts.now ends.now) counter raw) }
{
    step(counter, raw, count_in(layout, starts, ends, counter, raw))
}

fn count_in(
    layout: Layout,
    starts: &[u64],
    ends: &[u64],
    counter: RawCounter,
    raw: u32,
) -> Result<u64, Refusal>
    ensures { answer_of result ≡ read_raw layout (partitions starts.now ends.now) counter raw }
{
    let b = accept_stamps(measure(layout), starts, ends)?;
    count_of(b.total, counter, raw)
}

// The answer, with the counter that it leaves.
#[tactic(auto, unfolding(raw_rules::specs::Counter::counter_after))]
fn step(counter: RawCounter, raw: u32, answer: Result<u64, Refusal>) -> RawStep
    ensures answer_value { answer_of result.answer ≡ answer_of answer }
    ensures next_value { result.next ≡ counter_after counter raw (answer_of answer) }
{
    let next = match answer {
        Ok(count) => RawCounter {
            started: true,
            raw,
            count,
        },
        Err(_) => counter,
    };
    RawStep { answer, next }
}

// The encoded count of a partition's start.
#[tactic(auto, unfolding(rules::specs::Answer::unless))]
fn start_of(starts: &[u64], ends: &[u64], number: u64) -> Result<u64, Refusal>
    requires { Listed (partitions starts.now ends.now) }
    ensures { answer_of result ≡ unless 10 (nat_le 1 number && nat_le number (length starts.now)) (answer (lengths_before (partitions starts.now ends.now) (number - 1))) }
{
    if number < 1 || (starts.len() as u64) < number {
        return Err(Refusal::NoSuchPartition);
    }
    Ok(lengths_before(starts, ends, (number - 1) as usize))
}

// The encoded count that a reading makes, under a table with this total.
#[tactic(auto, unfolding(rules::specs::Answer::unless))]
fn count_of(total: u64, counter: RawCounter, raw: u32) -> Result<u64, Refusal>
    ensures { answer_of result ≡ unless 27 counter.started (not_past total (counter.count + raw_difference raw counter.raw)) }
{
    if !counter.started {
        return Err(Refusal::NeverReset);
    }
    add(total, counter.count, difference(raw, counter.raw))
}

// How far a 32-bit counter moved from `last` to `raw`.
#[tactic(auto, unfolding(raw_rules::specs::Counter::raw_difference))]
fn difference(raw: u32, last: u32) -> u32
    ensures { result ≡ raw_difference raw last }
{
    raw.wrapping_sub(last)
}

// The sum where it is not past the total. The count may be any number.
#[tactic(auto, unfolding(raw_rules::specs::Counter::not_past, rules::specs::Answer::unless))]
fn add(total: u64, count: u64, ticks: u32) -> Result<u64, Refusal>
    ensures { answer_of result ≡ not_past total (count + ticks) }
{
    match count.checked_add(u64::from(ticks)) {
        Some(sum) if sum <= total => Ok(sum),
        _ => Err(Refusal::BeyondTotal),
    }
}

// The double form: one segment as three doubles, for tools that work in doubles.
// Each operation of a conversion is an f64 operation, in the order that docs/RULES.md writes it.
#![tactic(auto)]

ghost use Rattle.std.specs.Prelude.{◌≡◌, ◌≤◌};
ghost use Rattle.rules.specs.Limits.{largest_msf};
ghost use Rattle.rules.specs.Doubles.{tick_of, time_after, count_after, msf_ok, finite as is_finite, segment_finite, rate_ok, finite_answer, forward_double, back_double};
ghost use Rattle.rules.specs.Answer.{answer_of};

use rules::{DoubleSegment, Layout, Refusal};

// The time at a count of the segment, in seconds.
#[tactic(auto, using(crate::proofs::Tests::msf_small), unfolding(rules::specs::Doubles::forward_double, rules::specs::Answer::unless))]
pub fn forward(segment: DoubleSegment, msf: u64, count: u64) -> Result<f64, Refusal>
    ensures { answer_of result ≡ forward_double segment msf count }
{
    if !msf_ok(msf)
        || Layout::LARGEST_P < count
        || !segment_finite(segment)
        || !rate_ok(segment, msf)
    {
        return Err(Refusal::DoubleForm);
    }
    let given = count as f64;
    if given < segment.count {
        return Err(Refusal::DoubleForm);
    }
    finite_answer(time_after(segment, msf, given))
}

// The count at a time of the segment, whole or not.
#[tactic(auto, using(crate::proofs::Tests::msf_small), unfolding(rules::specs::Doubles::back_double, rules::specs::Answer::unless))]
pub fn back(segment: DoubleSegment, msf: u64, time: f64) -> Result<f64, Refusal>
    ensures { answer_of result ≡ back_double segment msf time }
{
    if !msf_ok(msf)
        || !segment_finite(segment)
        || !finite(time)
        || !rate_ok(segment, msf)
        || time < segment.time
    {
        return Err(Refusal::DoubleForm);
    }
    finite_answer(count_after(segment, msf, time))
}

#[tactic(auto, unfolding(rules::specs::Doubles::msf_ok))]
fn msf_ok(msf: u64) -> bool
    ensures { result ≡ msf_ok msf }
{
    1 <= msf && msf <= Layout::LARGEST_MSF
}

// Strictly between the infinities, where no NaN is.
fn finite(x: f64) -> bool
    ensures { result ≡ is_finite x }
{
    x < 1.0 / 0.0 && -(1.0 / 0.0) < x
}

#[tactic(auto, unfolding(rules::specs::Doubles::segment_finite, base::specs::Scans::all_of))]
fn segment_finite(segment: DoubleSegment) -> bool
    ensures { result ≡ segment_finite segment }
{
    finite(segment.count) && finite(segment.time) && finite(segment.rate)
}

// The rate is above 0, and over MSF it is not lost to rounding.
fn rate_ok(segment: DoubleSegment, msf: u64) -> bool
    requires { msf ≤ largest_msf }
    ensures { result ≡ rate_ok segment msf }
{
    0.0 < segment.rate && tick(segment, msf) != 0.0
}

// The segment's line forward.
fn time_after(segment: DoubleSegment, msf: u64, count: f64) -> f64
    requires { msf ≤ largest_msf }
    ensures { result ≡ time_after segment msf count }
{
    segment.time + tick(segment, msf) * (count - segment.count)
}

// The segment's line back.
fn count_after(segment: DoubleSegment, msf: u64, time: f64) -> f64
    requires { msf ≤ largest_msf }
    ensures { result ≡ count_after segment msf time }
{
    segment.count + (time - segment.time) / tick(segment, msf)
}

// The seconds of one tick.
fn tick(segment: DoubleSegment, msf: u64) -> f64
    requires { msf ≤ largest_msf }
    ensures { result ≡ tick_of segment msf }
{
    segment.rate / msf as f64
}

#[tactic(auto, unfolding(rules::specs::Doubles::finite_answer, rules::specs::Answer::unless))]
fn finite_answer(x: f64) -> Result<f64, Refusal>
    ensures { answer_of result ≡ finite_answer x }
{
    if finite(x) {
        Ok(x)
    } else {
        Err(Refusal::DoubleForm)
    }
}

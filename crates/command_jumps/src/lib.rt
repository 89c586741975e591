// Where segments meet: the time that a row's line reaches where the next row begins, and how many gaps and steps back there are.
#![tactic(auto)]

ghost use Rattle.std.specs.Prelude.{◌≡◌, cond, ◌<◌, length};
ghost use Rattle.rules.specs.Segments.{segments, steps_back_at};
ghost use Rattle.command_rules.specs.Describe.{count_below, reached as reached_by, is_gap};
ghost use Rattle.command_jumps.specs.Reached.{NextReached, AllReached};

use segment_line::time_on;
use segments::row::row_at;

// The time that the line of row `i`, rounded up, reaches where the next row begins.
pub fn reached(unit: u64, counts: &[u64], times: &[i64], rates: &[u64], i: usize) -> i64
    requires { NextReached unit (segments counts.now times.now rates.now) i }
    ensures { result ≡ reached_by unit (segments counts.now times.now rates.now) i }
{
    time_on(unit, row_at(counts, times, rates, i), counts[i + 1])
}

// How many rows the next row's time is later behind.
#[tactic(auto, using(crate::proofs::Jumps::count_begins, crate::proofs::Jumps::count_next, crate::proofs::Jumps::count_done))]
pub fn count_gaps(unit: u64, counts: &[u64], times: &[i64], rates: &[u64]) -> u64
    requires { AllReached unit (segments counts.now times.now rates.now) }
    ensures { result ≡ count_below (is_gap unit (segments counts.now times.now rates.now)) (length counts.now) }
{
    let mut found: u64 = 0;
    for i in 0..counts.len() {
        found += one_if(is_gap(unit, counts, times, rates, i));
    }
    found
}

// How many rows the next row's time is earlier behind.
#[tactic(auto, using(crate::proofs::Jumps::count_begins, crate::proofs::Jumps::count_next, crate::proofs::Jumps::count_done))]
pub fn count_steps_back(unit: u64, counts: &[u64], times: &[i64], rates: &[u64]) -> u64
    requires { AllReached unit (segments counts.now times.now rates.now) }
    ensures { result ≡ count_below (steps_back_at unit (segments counts.now times.now rates.now)) (length counts.now) }
{
    let mut found: u64 = 0;
    for i in 0..counts.len() {
        found += one_if(is_step_back(unit, counts, times, rates, i));
    }
    found
}

#[tactic(auto, using(crate::proofs::Jumps::next_reached, crate::proofs::Jumps::next_time_in, crate::proofs::Jumps::gap_told, crate::proofs::Jumps::no_gap))]
fn is_gap(unit: u64, counts: &[u64], times: &[i64], rates: &[u64], i: usize) -> bool
    requires all_reached { AllReached unit (segments counts.now times.now rates.now) }
    requires i_in_bounds { i < length counts.now }
    ensures { result ≡ is_gap unit (segments counts.now times.now rates.now) i }
{
    i + 1 < counts.len() && reached(unit, counts, times, rates, i) < times[i + 1]
}

#[tactic(auto, using(crate::proofs::Jumps::next_reached, crate::proofs::Jumps::next_time_in, crate::proofs::Jumps::back_told, crate::proofs::Jumps::no_back))]
fn is_step_back(unit: u64, counts: &[u64], times: &[i64], rates: &[u64], i: usize) -> bool
    requires all_reached { AllReached unit (segments counts.now times.now rates.now) }
    requires i_in_bounds { i < length counts.now }
    ensures { result ≡ steps_back_at unit (segments counts.now times.now rates.now) i }
{
    i + 1 < counts.len() && times[i + 1] < reached(unit, counts, times, rates, i)
}

fn one_if(test: bool) -> u64
    ensures { result ≡ cond test 1 0 }
{
    if test { 1 } else { 0 }
}

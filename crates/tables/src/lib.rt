// Whether tables are accepted: 1 layout, 2 partitions, 3 segments, in this order, with the numbers that calls need of them;
// and the question whether a table steps back.
#![tactic(auto)]

ghost use Rattle.std.specs.Prelude.{◌≡◌};
ghost use Rattle.rules.specs.Answer.{and_then, answer_of};
ghost use Rattle.rules.specs.Partitions.{partitions};
ghost use Rattle.rules.specs.Segments.{segments};
ghost use Rattle.rules.specs.Time.{steps_back_in};
ghost use Rattle.layouts.specs.Measure.{InLimits};
ghost use Rattle.tables.specs.Accept.{stamps_basis, table_basis};

use layouts::{Measured, measure};
use rules::{Layout, Refusal};

// Of accepted tables: the unit 1,000×MSF by which a rate is divided, and the total.
#[derive(Clone, Copy)]
pub struct Basis {
    pub unit: u64,
    pub total: u64,
}

// Layout and partitions: what a stamp is read and printed by. The layout is long, so it stays with the call, and its measure
// is handed on.
#[tactic(auto, unfolding(crate::specs::Accept::stamps_basis, partitions::specs::Total::accepted_total, rules::specs::Answer::and_then, rules::specs::Answer::unless_at))]
pub fn accept_stamps(
    measured: Result<Measured, Refusal>,
    starts: &[u64],
    ends: &[u64],
) -> Result<Basis, Refusal>
    ensures { answer_of result ≡ and_then (answer_of measured) (stamps_basis (partitions starts.now ends.now)) }
{
    let m = measured?;
    let total = partitions::check(m.product, starts, ends)?;
    Ok(Basis {
        unit: m.unit,
        total,
    })
}

// Layout, partitions and segments: what times are turned by.
#[tactic(auto, unfolding(crate::specs::Accept::table_basis, segments::specs::Rows::accepted_segments, rules::specs::Answer::and_then, rules::specs::Answer::unless_at))]
pub fn accept(
    measured: Result<Measured, Refusal>,
    starts: &[u64],
    ends: &[u64],
    counts: &[u64],
    times: &[i64],
    rates: &[u64],
) -> Result<Basis, Refusal>
    requires { InLimits measured }
    ensures { answer_of result ≡ and_then (answer_of measured) (table_basis (partitions starts.now ends.now) (segments counts.now times.now rates.now)) }
{
    let b = accept_stamps(measured, starts, ends)?;
    segments::check(b.unit, b.total, counts, times, rates)?;
    Ok(b)
}

// Whether the table steps back.
#[tactic(auto, using(layouts::proofs::Units::measured_in_limits))]
pub fn steps_back(
    layout: Layout,
    starts: &[u64],
    ends: &[u64],
    counts: &[u64],
    times: &[i64],
    rates: &[u64],
) -> Result<bool, Refusal>
    ensures { answer_of result ≡ steps_back_in layout (partitions starts.now ends.now) (segments counts.now times.now rates.now) }
{
    let b = accept(measure(layout), starts, ends, counts, times, rates)?;
    Ok(segments::steps_back(b.unit, counts, times, rates))
}

// What holds of an older and a newer table that are accepted: whether the one succeeds the other, and below which encoded count they agree.
#![tactic(auto)]

ghost use Rattle.std.specs.Prelude.{◌≡◌};
ghost use Rattle.rules.specs.Partitions.{partitions};
ghost use Rattle.rules.specs.Segments.{segments};
ghost use Rattle.tables.specs.Accept.{TableFacts};
ghost use Rattle.succession_rules.specs.OfTwo.{table_of};
ghost use Rattle.succession_rules.specs.Succession.{fails as failing, failure, verdict, verdict_of};
ghost use Rattle.succession_rules.specs.Horizon.{horizon_in};

use rules::Layout;
use succession_rows::{
    agree_below, further_low, kept_partitions, same_layout, shared_rows, steps_back_at,
};
use succession_rules::{Condition, Failure, Succession};
use tables::Basis;

// Whether the newer of two accepted tables succeeds the older, by what accepting them gave.
#[tactic(auto, using(succession_rules::proofs::Found::row_found, succession_rules::proofs::Found::row_none, crate::proofs::Asked::unit_low, crate::proofs::Asked::seam_low), unfolding(succession_rules::specs::Succession::verdict, succession_rules::specs::Succession::unless_fails, rules::specs::Answer::fails_at, succession_rules::specs::Kept::seam_back, succession_rules::specs::Kept::partition_lost, succession_rules::specs::Kept::segment_lost, succession_rules::specs::Horizon::shared_rows, succession_rules::specs::Kept::further_low))]
pub fn succeeds_within(
    older: Layout,
    older_starts: &[u64],
    older_ends: &[u64],
    older_counts: &[u64],
    older_times: &[i64],
    older_rates: &[u64],
    older_basis: Basis,
    newer: Layout,
    newer_starts: &[u64],
    newer_ends: &[u64],
    newer_counts: &[u64],
    newer_times: &[i64],
    newer_rates: &[u64],
    newer_basis: Basis,
) -> Succession
    requires table_facts { TableFacts older (partitions older_starts.now older_ends.now) (segments older_counts.now older_times.now older_rates.now) older_basis }
    requires table_facts_2 { TableFacts newer (partitions newer_starts.now newer_ends.now) (segments newer_counts.now newer_times.now newer_rates.now) newer_basis }
    ensures { verdict_of result ≡ verdict (table_of older older_starts.now older_ends.now older_counts.now older_times.now older_rates.now) (table_of newer newer_starts.now newer_ends.now newer_counts.now newer_times.now newer_rates.now) }
{
    if !same_layout(older, newer) {
        return fails(Condition::Layout, 0);
    }
    let partition = kept_partitions(older_starts, older_ends, newer_starts, newer_ends);
    if partition < older_starts.len() {
        return fails(Condition::Partition, partition);
    }
    let segment = shared_rows(
        older_counts,
        older_times,
        older_rates,
        newer_counts,
        newer_times,
        newer_rates,
    );
    if segment < older_counts.len() {
        return fails(Condition::Segment, segment);
    }
    let further = further_low(older_basis.total, older_counts.len(), newer_counts);
    if further < newer_counts.len() {
        return fails(Condition::Further, further);
    }
    let seam = older_counts.len() - 1;
    if steps_back_at(
        newer_basis.unit,
        newer_counts,
        newer_times,
        newer_rates,
        seam,
    ) {
        return fails(Condition::Seam, seam);
    }
    Ok(())
}

fn fails(condition: Condition, row: usize) -> Succession
    ensures { verdict_of result ≡ failing (failure condition row) }
{
    Err(Failure { condition, row })
}

// The count below which two accepted tables agree.
#[tactic(auto, using(succession_rules::proofs::Found::row_found, succession_rules::proofs::Found::row_none), unfolding(succession_rules::specs::Horizon::horizon_in, succession_rules::specs::Horizon::stamps_kept, succession_rules::specs::Kept::partition_lost))]
pub fn horizon_within(
    older: Layout,
    older_starts: &[u64],
    older_ends: &[u64],
    older_counts: &[u64],
    older_times: &[i64],
    older_rates: &[u64],
    older_basis: Basis,
    newer: Layout,
    newer_starts: &[u64],
    newer_ends: &[u64],
    newer_counts: &[u64],
    newer_times: &[i64],
    newer_rates: &[u64],
    newer_basis: Basis,
) -> u64
    requires table_facts { TableFacts older (partitions older_starts.now older_ends.now) (segments older_counts.now older_times.now older_rates.now) older_basis }
    requires table_facts_2 { TableFacts newer (partitions newer_starts.now newer_ends.now) (segments newer_counts.now newer_times.now newer_rates.now) newer_basis }
    ensures { result ≡ horizon_in (table_of older older_starts.now older_ends.now older_counts.now older_times.now older_rates.now) (table_of newer newer_starts.now newer_ends.now newer_counts.now newer_times.now newer_rates.now) }
{
    if !same_layout(older, newer)
        || kept_partitions(older_starts, older_ends, newer_starts, newer_ends)
            < older_starts.len()
    {
        return 0;
    }
    agree_below(
        older_basis.total,
        older_counts,
        older_times,
        older_rates,
        newer_counts,
        newer_times,
        newer_rates,
    )
}

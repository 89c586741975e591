// Two tables, an older and a newer: whether the one succeeds the other, and below which encoded count they agree.
#![tactic(auto)]

ghost use Rattle.std.specs.Prelude.{◌≡◌, IfOk};
ghost use Rattle.succession_rules.specs.OfTwo.{table_of, of_two, answered_as, answered_of};
ghost use Rattle.succession_rules.specs.Succession.{succession, verdict_of};
ghost use Rattle.succession_rules.specs.Horizon.{horizon_of};
ghost use Rattle.succession.specs.Both.{BothFacts};

use layouts::measure;
use rules::Layout;
use succession_rules::{Succession, TableRefusal};
use succession_within::{horizon_within, succeeds_within};
use tables::{Basis, accept};

// Whether the newer table succeeds the older, or the first condition that fails; the older table is checked first.
#[tactic(auto, using(crate::proofs::Calls::refused_alike), unfolding(succession_rules::specs::Succession::succession))]
pub fn succeeds(
    older: Layout,
    older_starts: &[u64],
    older_ends: &[u64],
    older_counts: &[u64],
    older_times: &[i64],
    older_rates: &[u64],
    newer: Layout,
    newer_starts: &[u64],
    newer_ends: &[u64],
    newer_counts: &[u64],
    newer_times: &[i64],
    newer_rates: &[u64],
) -> Result<Succession, TableRefusal>
    ensures { answered_as verdict_of result ≡ succession (table_of older older_starts.now older_ends.now older_counts.now older_times.now older_rates.now) (table_of newer newer_starts.now newer_ends.now newer_counts.now newer_times.now newer_rates.now) }
{
    let accepted = accept_both(
        older,
        older_starts,
        older_ends,
        older_counts,
        older_times,
        older_rates,
        newer,
        newer_starts,
        newer_ends,
        newer_counts,
        newer_times,
        newer_rates,
    );
    let (older_basis, newer_basis) = accepted?;
    let succession = succeeds_within(
        older,
        older_starts,
        older_ends,
        older_counts,
        older_times,
        older_rates,
        older_basis,
        newer,
        newer_starts,
        newer_ends,
        newer_counts,
        newer_times,
        newer_rates,
        newer_basis,
    );
    Ok(succession)
}

// The encoded count below which the two tables agree; the older table is checked first.
#[tactic(auto, using(crate::proofs::Calls::refused_alike), unfolding(succession_rules::specs::Horizon::horizon_of))]
pub fn horizon(
    older: Layout,
    older_starts: &[u64],
    older_ends: &[u64],
    older_counts: &[u64],
    older_times: &[i64],
    older_rates: &[u64],
    newer: Layout,
    newer_starts: &[u64],
    newer_ends: &[u64],
    newer_counts: &[u64],
    newer_times: &[i64],
    newer_rates: &[u64],
) -> Result<u64, TableRefusal>
    ensures { answered_of result ≡ horizon_of (table_of older older_starts.now older_ends.now older_counts.now older_times.now older_rates.now) (table_of newer newer_starts.now newer_ends.now newer_counts.now newer_times.now newer_rates.now) }
{
    let both = accept_both(
        older,
        older_starts,
        older_ends,
        older_counts,
        older_times,
        older_rates,
        newer,
        newer_starts,
        newer_ends,
        newer_counts,
        newer_times,
        newer_rates,
    );
    let (older_basis, newer_basis) = both?;
    let below = horizon_within(
        older,
        older_starts,
        older_ends,
        older_counts,
        older_times,
        older_rates,
        older_basis,
        newer,
        newer_starts,
        newer_ends,
        newer_counts,
        newer_times,
        newer_rates,
        newer_basis,
    );
    Ok(below)
}

// What accepting the two tables gives, the older first.
#[tactic(auto, using(layouts::proofs::Units::measured_in_limits))]
fn accept_both(
    older: Layout,
    older_starts: &[u64],
    older_ends: &[u64],
    older_counts: &[u64],
    older_times: &[i64],
    older_rates: &[u64],
    newer: Layout,
    newer_starts: &[u64],
    newer_ends: &[u64],
    newer_counts: &[u64],
    newer_times: &[i64],
    newer_rates: &[u64],
) -> Result<(Basis, Basis), TableRefusal>
    ensures said { answered_as (λ b. tt {0}) result ≡ of_two (table_of older older_starts.now older_ends.now older_counts.now older_times.now older_rates.now) (table_of newer newer_starts.now newer_ends.now newer_counts.now newer_times.now newer_rates.now) (tt {0}) }
    ensures facts { IfOk result (λ b. BothFacts (table_of older older_starts.now older_ends.now older_counts.now older_times.now older_rates.now) (table_of newer newer_starts.now newer_ends.now newer_counts.now newer_times.now newer_rates.now) b) }
{
    let older_basis = accept(
        measure(older),
        older_starts,
        older_ends,
        older_counts,
        older_times,
        older_rates,
    )
    .map_err(TableRefusal::Older)?;
    let newer_basis = accept(
        measure(newer),
        newer_starts,
        newer_ends,
        newer_counts,
        newer_times,
        newer_rates,
    )
    .map_err(TableRefusal::Newer)?;
    Ok((older_basis, newer_basis))
}

// The clock that a packet's time is counted by: the tables' refusals, 1 and 2, where a clock without two fields is refused 1 too.
#![tactic(auto)]

ghost use Rattle.std.specs.Prelude.{◌≡◌};
ghost use Rattle.rules.specs.Partitions.{partitions};
ghost use Rattle.packet_clock.specs.Clock.{clock_basis};
ghost use Rattle.rules.specs.Answer.{answer_of};

use layouts::measure;
use rules::{Layout, Refusal};
use tables::{Basis, accept_stamps};

// Always inlined: as a call of its own it copies the layout, and measures it knowing nothing of it.
#[inline(always)]
pub fn accept_clock(layout: Layout, starts: &[u64], ends: &[u64]) -> Result<Basis, Refusal>
    ensures { answer_of result ≡ clock_basis layout (partitions starts.now ends.now) }
{
    if layout.n != 2 {
        return Err(Refusal::Layout);
    }
    accept_stamps(measure(layout), starts, ends)
}

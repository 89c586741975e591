// The call: a kernel text to the tables of one clock, in lent lists.
#![tactic(auto)]

ghost use Rattle.std.specs.Prelude.{◌≡◌};
ghost use Rattle.kernel_rules.specs.Tables.{lists_of};
ghost use Rattle.kernel_rules.specs.Kernel.{kernel_given, read_kernel, lists_after};
ghost use Rattle.rules.specs.Answer.{answer_of};

use kernel_gather::gather;
use kernel_give::give_gathered;
use kernel_rules::Kernel;
use layouts::limits::{MOST_PARTITIONS, MOST_SEGMENTS};
use rules::{Layout, Refusal};

// Reads the kernel text of the clock with this number, and writes its lists to the fronts of those lent.
// A refusal leaves every lent list as it was.
pub fn read_kernel(
    text: &[u8],
    clock: i64,
    moduli: &mut [u64],
    offsets: &mut [u64],
    starts: &mut [u64],
    ends: &mut [u64],
    counts: &mut [u64],
    times: &mut [i64],
    rates: &mut [u64],
) -> Result<Kernel, Refusal>
    ensures result_value { answer_of result ≡ kernel_given (read_kernel text.now clock (lists_of moduli.old offsets.old starts.old ends.old counts.old times.old rates.old)) }
    ensures rates_after { lists_of moduli.new offsets.new starts.new ends.new counts.new times.new rates.new ≡ lists_after (read_kernel text.now clock (lists_of moduli.old offsets.old starts.old ends.old counts.old times.old rates.old)) (lists_of moduli.old offsets.old starts.old ends.old counts.old times.old rates.old) }
{
    // Nothing is lent on before all is known, so the lists are gathered here: 400 KB of stack.
    let mut ms = [0u64; Layout::MOST_FIELDS + 1];
    let mut os = [0u64; Layout::MOST_FIELDS + 1];
    let mut ss = [0u64; MOST_PARTITIONS + 1];
    let mut es = [0u64; MOST_PARTITIONS + 1];
    let mut cs = [0u64; MOST_SEGMENTS + 1];
    let mut ts = [0i64; MOST_SEGMENTS + 1];
    let mut rs = [0u64; MOST_SEGMENTS + 1];
    let g = gather(
        text, clock, &mut ms, &mut os, &mut ss, &mut es, &mut cs, &mut ts, &mut rs,
    )?;
    give_gathered(
        g, &ms, moduli, &os, offsets, &ss, starts, &es, ends, &cs, counts, &ts, times, &rs, rates,
    )
}

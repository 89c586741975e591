// Gathered tables, checked and handed out: 1, 2 and 3, then 16.
#![tactic(auto)]

ghost use Rattle.std.specs.Prelude.{◌≡◌};
ghost use Rattle.kernel_rules.specs.Tables.{lists_of};
ghost use Rattle.kernel_tables.specs.Given.{tables_with, kept_with};
ghost use Rattle.kernel_gather.specs.Gathered.{kept_in};
ghost use Rattle.kernel_give.specs.Fitting.{Gives};

use kernel_gather::Gathered;
use kernel_lists::hand_out;
use kernel_rules::Kernel;
use kernel_tables::check;
use rules::Refusal;

// The lists at the fronts of the arrays, as far as these keep them, checked and handed out.
pub fn give_gathered(
    g: Gathered,
    ms: &[u64],
    moduli: &mut [u64],
    os: &[u64],
    offsets: &mut [u64],
    ss: &[u64],
    starts: &mut [u64],
    es: &[u64],
    ends: &mut [u64],
    cs: &[u64],
    counts: &mut [u64],
    ts: &[i64],
    times: &mut [i64],
    rs: &[u64],
    rates: &mut [u64],
) -> Result<Kernel, Refusal>
    ensures { Gives (kept_in g ms.now os.now ss.now es.now cs.now ts.now rs.now) (lists_of moduli.old offsets.old starts.old ends.old counts.old times.old rates.old) result (lists_of moduli.new offsets.new starts.new ends.new counts.new times.new rates.new) }
{
    let partitions = g.starts.min(g.ends);
    let segments = g.counts.min(g.times.min(g.rates));
    let m = g.moduli.min(ms.len());
    let o = g.offsets.min(os.len());
    let s = g.starts.min(ss.len());
    let e = g.ends.min(es.len());
    let c = g.counts.min(cs.len());
    let t = g.times.min(ts.len());
    let r = g.rates.min(rs.len());
    give(
        g.n,
        g.delimiter,
        g.system,
        partitions,
        segments,
        &ms[..m],
        moduli,
        &os[..o],
        offsets,
        &ss[..s],
        starts,
        &es[..e],
        ends,
        &cs[..c],
        counts,
        &ts[..t],
        times,
        &rs[..r],
        rates,
    )
}

// Accepted tables go to the lent lists.
fn give(
    n: u64,
    delimiter: u64,
    system: u8,
    partitions: usize,
    segments: usize,
    ms: &[u64],
    moduli: &mut [u64],
    os: &[u64],
    offsets: &mut [u64],
    ss: &[u64],
    starts: &mut [u64],
    es: &[u64],
    ends: &mut [u64],
    cs: &[u64],
    counts: &mut [u64],
    ts: &[i64],
    times: &mut [i64],
    rs: &[u64],
    rates: &mut [u64],
) -> Result<Kernel, Refusal>
    ensures { Gives (kept_with (tables_with n delimiter system ms.now os.now ss.now es.now cs.now ts.now rs.now) partitions segments) (lists_of moduli.old offsets.old starts.old ends.old counts.old times.old rates.old) result (lists_of moduli.new offsets.new starts.new ends.new counts.new times.new rates.new) }
{
    let k = check(
        n, delimiter, system, partitions, segments, ms, os, ss, es, cs, ts, rs,
    )?;
    if hand_out(
        ms, moduli, os, offsets, ss, starts, es, ends, cs, counts, ts, times, rs, rates,
    ) {
        Ok(k)
    } else {
        Err(Refusal::BufferTooShort)
    }
}

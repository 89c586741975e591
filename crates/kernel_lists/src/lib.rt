// The lists of a kernel go to the lists that were lent: all of them, or none.
#![tactic(auto)]

ghost use Rattle.std.specs.Prelude.{◌≡◌, ◌∷◌, [], true, ◌≤◌, leb, length};
ghost use Rattle.base.specs.Scans.{all_of};
ghost use Rattle.kernel_rules.specs.Tables.{lists_of};
ghost use Rattle.kernel_rules.specs.Kernel.{front, fits};
ghost use Rattle.kernel_lists.specs.Handed.{handed, Rooms};

// Copies each list to the front of the list lent for it, where every one of them has room.
pub fn hand_out(
    moduli: &[u64],
    tomoduli: &mut [u64],
    offsets: &[u64],
    tooffsets: &mut [u64],
    starts: &[u64],
    tostarts: &mut [u64],
    ends: &[u64],
    toends: &mut [u64],
    counts: &[u64],
    tocounts: &mut [u64],
    times: &[i64],
    totimes: &mut [i64],
    rates: &[u64],
    torates: &mut [u64],
) -> bool
    ensures value { result ≡ fits (lists_of moduli.now offsets.now starts.now ends.now counts.now times.now rates.now) (lists_of tomoduli.old tooffsets.old tostarts.old toends.old tocounts.old totimes.old torates.old) }
    ensures torates_after { lists_of tomoduli.new tooffsets.new tostarts.new toends.new tocounts.new totimes.new torates.new ≡ handed result (lists_of moduli.now offsets.now starts.now ends.now counts.now times.now rates.now) (lists_of tomoduli.old tooffsets.old tostarts.old toends.old tocounts.old totimes.old torates.old) }
{
    if !all_fit(
        moduli.len(),
        tomoduli.len(),
        offsets.len(),
        tooffsets.len(),
        starts.len(),
        tostarts.len(),
        ends.len(),
        toends.len(),
        counts.len(),
        tocounts.len(),
        times.len(),
        totimes.len(),
        rates.len(),
        torates.len(),
    ) {
        return false;
    }
    copy(tomoduli, moduli);
    copy(tooffsets, offsets);
    copy(tostarts, starts);
    copy(toends, ends);
    copy(tocounts, counts);
    copy(totimes, times);
    copy(torates, rates);
    true
}

// Whether each of seven lists has room: n0 numbers go to a list of m0, and so on.
#[tactic(auto, unfolding(base::specs::Scans::all_of))]
fn all_fit(
    n0: usize,
    m0: usize,
    n1: usize,
    m1: usize,
    n2: usize,
    m2: usize,
    n3: usize,
    m3: usize,
    n4: usize,
    m4: usize,
    n5: usize,
    m5: usize,
    n6: usize,
    m6: usize,
) -> bool
    ensures value { result ≡ all_of (leb n0 m0 ∷ leb n1 m1 ∷ leb n2 m2 ∷ leb n3 m3 ∷ leb n4 m4 ∷ leb n5 m5 ∷ leb n6 m6 ∷ []) }
    ensures rooms { result ≡ true → Rooms n0 m0 n1 m1 n2 m2 n3 m3 n4 m4 n5 m5 n6 m6 }
{
    n0 <= m0 && n1 <= m1 && n2 <= m2 && n3 <= m3 && n4 <= m4 && n5 <= m5 && n6 <= m6
}

#[tactic(auto, unfolding(kernel_rules::specs::Kernel::front))]
fn copy<T: Copy>(out: &mut [T], part: &[T])
    requires { length part.now ≤ length out.old }
    ensures { out.new ≡ front part.now out.old }
{
    out[..part.len()].copy_from_slice(part);
}

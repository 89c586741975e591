// The five lists: whether each is given as it may be, whether its numbers are exact, and how many they are. The arrays keep as many as they
// have room for.
#![tactic(auto)]

ghost use Rattle.std.specs.Prelude.{◌≡◌, [], ◌∷◌, ◌+◌, ◌<◌, ◌≤◌, ◌/◌, length, take, get_or};
ghost use Rattle.base.specs.Scans.{all_of};
ghost use Rattle.kernel_rules.specs.Tables.{values_given, numbers, counts_in, times_in, rates_in};
ghost use Rattle.kernel_values.specs.Reads.{times_of, rates_of};
ghost use Rattle.kernel_find.specs.Slots.{slot_at, Placed};
ghost use Rattle.kernel_listing.specs.Listed.{listed_of, rows_of, Room, ListsKept};

use kernel_values::{fill_list, fill_rows};

#[derive(Clone, Copy)]
pub struct Listing {
    pub good: bool,
    pub exact: bool,
    pub moduli: usize,
    pub offsets: usize,
    pub starts: usize,
    pub ends: usize,
    pub counts: usize,
    pub times: usize,
    pub rates: usize,
}

#[derive(Clone, Copy)]
pub struct Listed {
    pub good: bool,
    pub exact: bool,
    pub count: usize,
}

#[derive(Clone, Copy)]
pub struct Rows {
    pub good: bool,
    pub exact: bool,
    pub counts: usize,
    pub times: usize,
    pub rates: usize,
}

// The lists at their places, to the fronts of the arrays.
pub fn read_lists(
    text: &[u8],
    slots: [usize; 11],
    moduli: &mut [u64],
    offsets: &mut [u64],
    starts: &mut [u64],
    ends: &mut [u64],
    counts: &mut [u64],
    times: &mut [i64],
    rates: &mut [u64],
) -> Listing
    requires placed { Placed (length text.now) slots }
    requires room { Room moduli.old offsets.old starts.old ends.old counts.old times.old rates.old }
    ensures { ListsKept (λ k. slot_at text.now (get_or slots k 0)) result moduli.new offsets.new starts.new ends.new counts.new times.new rates.new }
{
    let m = read_list(text, slots[4], moduli);
    let o = read_list(text, slots[5], offsets);
    let c = read_rows(text, slots[7], counts, times, rates);
    let s = read_list(text, slots[8], starts);
    let e = read_list(text, slots[9], ends);
    Listing {
        good: all_five(m.good, o.good, c.good, s.good, e.good),
        exact: all_five(m.exact, o.exact, c.exact, s.exact, e.exact),
        moduli: m.count,
        offsets: o.count,
        starts: s.count,
        ends: e.count,
        counts: c.counts,
        times: c.times,
        rates: c.rates,
    }
}

// A list of whole numbers at the place `at`; 0 where the text does not give it.
fn read_list(text: &[u8], at: usize, out: &mut [u64]) -> Listed
    requires { at < length text.now }
    ensures value { result ≡ listed_of (slot_at text.now at) }
    ensures out_after { take result.count out.new ≡ take (length out.old) (numbers (values_given (slot_at text.now at))) }
    ensures out_len_unchanged { length out.new ≡ length out.old }
{
    if at == 0 {
        return Listed {
            good: false,
            exact: true,
            count: 0,
        };
    }
    let f = fill_list(text, at, out);
    Listed {
        good: f.plain & f.numbers,
        exact: f.exact,
        count: f.count,
    }
}

// The coefficients, a column to each array.
fn read_rows(
    text: &[u8],
    at: usize,
    counts: &mut [u64],
    times: &mut [i64],
    rates: &mut [u64],
) -> Rows
    requires at_in_bounds { at < length text.now }
    requires times_len { (length times.old ≡ length counts.old) × (length rates.old ≡ length counts.old) }
    ensures value { result ≡ rows_of (slot_at text.now at) }
    ensures counts_after { take result.counts counts.new ≡ take (length counts.old) (numbers (counts_in (values_given (slot_at text.now at)))) }
    ensures times_after { take result.times times.new ≡ take (length counts.old) (times_of (times_in (values_given (slot_at text.now at)))) }
    ensures rates_after { take result.rates rates.new ≡ take (length counts.old) (rates_of (rates_in (values_given (slot_at text.now at)))) }
    ensures counts_len_unchanged { (length counts.new ≡ length counts.old) × (length times.new ≡ length times.old) × (length rates.new ≡ length rates.old) }
{
    if at == 0 {
        return Rows {
            good: false,
            exact: true,
            counts: 0,
            times: 0,
            rates: 0,
        };
    }
    let f = fill_rows(text, at, counts, times, rates);
    Rows {
        good: f.plain & f.numbers,
        exact: f.exact,
        counts: in_column(f.count, 2),
        times: in_column(f.count, 1),
        rates: in_column(f.count, 0),
    }
}

// How many of `count` values stand in a column, of which `more` come before a row is whole.
fn in_column(count: usize, more: usize) -> usize
    requires { more ≤ 2 }
    ensures { result ≡ (count + more) / 3 }
{
    count / 3 + (count % 3 + more) / 3
}

#[tactic(auto, unfolding(base::specs::Scans::all_of))]
fn all_five(a: bool, b: bool, c: bool, d: bool, e: bool) -> bool
    ensures { result ≡ all_of (a ∷ b ∷ c ∷ d ∷ e ∷ []) }
{
    a && b && c && d && e
}

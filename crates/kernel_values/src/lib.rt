// The values of one assignment, read from the place of its own line and stored in lent lists.
#![tactic(auto)]

ghost use Rattle.std.specs.Prelude.{◌≡◌, true, cond, ◌≤◌, ◌<◌, eqb, length, set};
ghost use Rattle.kernel_rules.specs.Tables.{every, numbers, whole, in_nanoseconds, in_picoseconds, is_unsigned, unsigned, is_signed, counts_in, times_in, rates_in};
ghost use Rattle.kernel_walk.specs.Places.{line_here, lines_behind, values_here};
ghost use Rattle.kernel_values.specs.Storing.{stored};
ghost use Rattle.kernel_values.specs.Reads.{is_formed, signed_or0, judged_in, times_of, rates_of, list_read, rows_read, one_read};

use kernel_rules::Number;

// The units of a list's numbers, of times and of rates, as powers of ten.
const WHOLE: usize = 0;

const NANOSECONDS: usize = 9;

const PICOSECONDS: usize = 12;

// The first number beyond an i64.
const LIMIT: u64 = 9223372036854775808;

// What reading a list gives: whether the operator is a plain `=`, how many values there are, whether all are numbers, and whether all are exact in their units.
#[derive(Clone, Copy)]
pub struct Filled {
    pub plain: bool,
    pub count: usize,
    pub numbers: bool,
    pub exact: bool,
}

// What reading a name of one value gives.
#[derive(Clone, Copy)]
pub struct One {
    pub plain: bool,
    pub single: bool,
    pub number: Number,
}

// Whether a value is a number, and whether it is exact in its unit.
#[derive(Clone, Copy)]
struct Judged {
    number: bool,
    exact: bool,
}

// The list of whole numbers that the assignment at `at` gives, to the front of `out` as far as it has room. All of it is judged.
pub fn fill_list(text: &[u8], at: usize, out: &mut [u64]) -> Filled
    requires { at < length text.now }
    ensures value { result ≡ list_read (line_here text.now at) (lines_behind text.now at) }
    ensures out_after { out.new ≡ stored (numbers (values_here text.now at)) out.old }
{
    let mut v = kernel_walk::first_value(text, at);
    let mut count = 0;
    let mut good = true;
    let mut exact = true;
    while v.found {
        let judged = store_number(
            out,
            count,
            kernel_numbers::read_number(&text[v.from..v.to], WHOLE),
        );
        good &= judged.number;
        exact &= judged.exact;
        count += 1;
        v = kernel_walk::next_value(text, v.to, v.end, v.next);
    }
    Filled {
        plain: kernel_walk::is_plain(text, at),
        count,
        numbers: good,
        exact,
    }
}

// The coefficients that the assignment at `at` gives, in rows of three: counts, times in nanoseconds, rates in picoseconds.
pub fn fill_rows(
    text: &[u8],
    at: usize,
    counts: &mut [u64],
    times: &mut [i64],
    rates: &mut [u64],
) -> Filled
    requires { at < length text.now }
    ensures value { result ≡ rows_read (line_here text.now at) (lines_behind text.now at) }
    ensures counts_after { counts.new ≡ stored (numbers (counts_in (values_here text.now at))) counts.old }
    ensures times_after { times.new ≡ stored (times_of (times_in (values_here text.now at))) times.old }
    ensures rates_after { rates.new ≡ stored (rates_of (rates_in (values_here text.now at))) rates.old }
{
    let mut v = kernel_walk::first_value(text, at);
    let mut count = 0;
    let mut good = true;
    let mut exact = true;
    while v.found {
        let judged = store_column(
            &text[v.from..v.to],
            count % 3,
            count / 3,
            counts,
            times,
            rates,
        );
        good &= judged.number;
        exact &= judged.exact;
        count += 1;
        v = kernel_walk::next_value(text, v.to, v.end, v.next);
    }
    Filled {
        plain: kernel_walk::is_plain(text, at),
        count,
        numbers: good,
        exact,
    }
}

// The one value that the assignment at `at` should give.
pub fn read_one(text: &[u8], at: usize) -> One
    requires { at < length text.now }
    ensures { result ≡ one_read (line_here text.now at) (lines_behind text.now at) }
{
    let plain = kernel_walk::is_plain(text, at);
    let v = kernel_walk::first_value(text, at);
    if !v.found {
        return One {
            plain,
            single: false,
            number: Number::Malformed,
        };
    }
    let number = kernel_numbers::read_number(&text[v.from..v.to], WHOLE);
    let after = kernel_walk::next_value(text, v.to, v.end, v.next);
    One {
        plain,
        single: !after.found,
        number,
    }
}

// Stores the value w of a row in the list of its column, in that column's unit.
fn store_column(
    w: &[u8],
    column: usize,
    row: usize,
    counts: &mut [u64],
    times: &mut [i64],
    rates: &mut [u64],
) -> Judged
    requires { column < 3 }
    ensures value { result ≡ judged_in column w.now }
    ensures counts_after { counts.new ≡ cond (eqb column 0) (set counts.old row (unsigned (whole w.now))) counts.old }
    ensures times_after { times.new ≡ cond (eqb column 1) (set times.old row (signed_or0 (in_nanoseconds w.now))) times.old }
    ensures rates_after { rates.new ≡ cond (eqb column 2) (set rates.old row (unsigned (in_picoseconds w.now))) rates.old }
{
    if column == 0 {
        return store_number(counts, row, kernel_numbers::read_number(w, WHOLE));
    }
    if column == 1 {
        return store_time(times, row, kernel_numbers::read_number(w, NANOSECONDS));
    }
    store_number(rates, row, kernel_numbers::read_number(w, PICOSECONDS))
}

// Stores a number, 0 where it is none in 64 bits without a sign.
fn store_number(out: &mut [u64], i: usize, n: Number) -> Judged
    ensures value { result ≡ record { number = is_formed n; exact = is_unsigned n } }
    ensures out_after { out.new ≡ set out.old i (unsigned n) }
{
    store(out, i, unsigned_of(n));
    Judged {
        number: is_formed(n),
        exact: is_unsigned(n),
    }
}

fn store_time(out: &mut [i64], i: usize, n: Number) -> Judged
    ensures value { result ≡ record { number = is_formed n; exact = is_signed n } }
    ensures out_after { out.new ≡ set out.old i (signed_or0 n) }
{
    store(out, i, time_of(n));
    Judged {
        number: is_formed(n),
        exact: is_signed(n),
    }
}

fn store<T: Copy>(out: &mut [T], i: usize, x: T)
    ensures { out.new ≡ set out.old i x }
{
    if i < out.len() {
        out[i] = x;
    }
}

#[tactic(auto, unfolding(crate::specs::Reads::is_formed))]
pub fn is_formed(n: Number) -> bool
    ensures { result ≡ is_formed n }
{
    n != Number::Malformed
}

#[tactic(auto, unfolding(kernel_rules::specs::Tables::is_unsigned))]
pub fn is_unsigned(n: Number) -> bool
    ensures { result ≡ is_unsigned n }
{
    match n {
        Number::Malformed | Number::Inexact => false,
        Number::Plus(_) => true,
        Number::Minus(v) => v == 0,
    }
}

#[tactic(auto, unfolding(kernel_rules::specs::Tables::unsigned))]
pub fn unsigned_of(n: Number) -> u64
    ensures { result ≡ unsigned n }
{
    match n {
        Number::Plus(v) => v,
        Number::Malformed | Number::Inexact | Number::Minus(_) => 0,
    }
}

#[tactic(auto, unfolding(kernel_rules::specs::Tables::is_signed))]
fn is_signed(n: Number) -> bool
    ensures { result ≡ is_signed n }
{
    match n {
        Number::Malformed | Number::Inexact => false,
        Number::Plus(v) => v < LIMIT,
        Number::Minus(v) => v <= LIMIT,
    }
}

fn time_of(n: Number) -> i64
    ensures { result ≡ signed_or0 n }
{
    match n {
        Number::Malformed | Number::Inexact => 0,
        Number::Plus(v) => plus_time(v),
        Number::Minus(v) => minus_time(v),
    }
}

fn plus_time(v: u64) -> i64
    ensures { result ≡ signed_or0 (Number.Plus v) }
{
    if v < LIMIT {
        signed::from_ordinal(LIMIT + v)
    } else {
        0
    }
}

fn minus_time(v: u64) -> i64
    ensures { result ≡ signed_or0 (Number.Minus v) }
{
    if v <= LIMIT {
        signed::from_ordinal(LIMIT - v)
    } else {
        0
    }
}

// The ten names that a kernel gives a clock's tables by, and the clock's number at their ends.
#![tactic(auto)]

ghost use Rattle.std.specs.Prelude.{◌≡◌, [], ◌++◌, ◌≤◌, ◌<◌, length, take, get_or};
ghost use Rattle.kernel_rules.specs.Lines.{same};
ghost use Rattle.kernel_rules.specs.Names.{names, clock_digits, name_list, which, assigns};
ghost use Rattle.kernel_names.specs.Digits.{longest_digits};

use kernel_heads::name_in;
use kernel_lines::line_bytes::same;
use kernel_rules::Stage;

// How many names there are, and the number of a name that is none of them.
const NAMES: usize = 10;

// The number of the name that a line assigns: only in data, outside lists.
#[tactic(auto, unfolding(kernel_rules::specs::Names::assigns))]
pub fn assigns(digits: &[u8], p: Stage, l: &[u8]) -> usize
    ensures value { result ≡ assigns digits.now p l.now }
    ensures upper_bound { result ≤ names }
{
    match p {
        Stage::Data => assigned_name(digits, l),
        Stage::Comment | Stage::Opened | Stage::Numbers | Stage::Strings | Stage::Forbidden =>
            NAMES,
    }
}

// Writes the digits of the clock's number, without its sign, to the front of the buffer and answers how many they are.
pub fn clock_digits(clock: i64, buffer: &mut [u8]) -> usize
    requires { longest_digits ≤ length buffer.old }
    ensures buffer_after { take result buffer.new ≡ clock_digits clock }
    ensures upper_bound { result ≤ longest_digits }
{
    let number = signed::magnitude(clock);
    let width = decimal::digit_count(number);
    decimal::write_digits(number, width, width, buffer);
    width
}

fn assigned_name(digits: &[u8], l: &[u8]) -> usize
    ensures value { result ≡ assigns digits.now Stage.Data l.now }
    ensures upper_bound { result ≤ names }
{
    let name = name_in(l);
    which(digits, &l[name.start..name.end])
}

fn which(digits: &[u8], w: &[u8]) -> usize
    ensures value { result ≡ which digits.now w.now }
    ensures upper_bound { result ≤ names }
{
    for k in 0..NAMES {
        if is_named(digits, k, w) {
            return k;
        }
    }
    NAMES
}

// Whether w is the name k. (Inlined, as what it calls, so that the search for a line's name has ten lengths to compare and no calls.)
#[inline(always)]
#[tactic(auto, using(crate::proofs::NameParts::last_number), unfolding(kernel_rules::specs::Names::name_list, rules::specs::Examples::bytes))]
fn is_named(digits: &[u8], k: usize, w: &[u8]) -> bool
    requires { k < names }
    ensures { result ≡ same w.now (get_or (name_list digits.now) k []) }
{
    match k {
        0 => same(w, b"SCLK_KERNEL_ID"),
        1 => is_joined(w, b"SCLK_DATA_TYPE_", digits),
        2 => is_joined(w, b"SCLK01_TIME_SYSTEM_", digits),
        3 => is_joined(w, b"SCLK01_N_FIELDS_", digits),
        4 => is_joined(w, b"SCLK01_MODULI_", digits),
        5 => is_joined(w, b"SCLK01_OFFSETS_", digits),
        6 => is_joined(w, b"SCLK01_OUTPUT_DELIM_", digits),
        7 => is_joined(w, b"SCLK01_COEFFICIENTS_", digits),
        8 => is_joined(w, b"SCLK_PARTITION_START_", digits),
        _ => is_joined(w, b"SCLK_PARTITION_END_", digits),
    }
}

// Whether w is the bytes `a` and then the bytes `b`.
#[inline(always)]
fn is_joined(w: &[u8], a: &[u8], b: &[u8]) -> bool
    ensures { result ≡ same w.now (a.now ++ b.now) }
{
    let n = a.len();
    let end = n + b.len();
    if w.len() != end {
        return false;
    }
    if !same(&w[..n], a) {
        return false;
    }
    same(&w[n..end], b)
}

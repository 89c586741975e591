// Where a value ends, and strings.
ghost use Rattle.std.specs.Prelude.{◌≡◌, ◌+◌, ◌≤◌, false, not, ◌&&◌, leb, eqb, cond, length, drop};
ghost use Rattle.kernel_rules.specs.Lines.{span};
ghost use Rattle.kernel_rules.specs.Tokens.{is_quote, ends_value, in_value, quoted, string_width, longest_string, is_string};

use kernel_lines::kinds::{ByteKind, after};
use kernel_rules::Quoted;

const LONGEST_STRING: usize = 80;

pub fn ends_value(b: u8) -> bool
    ensures { result ≡ ends_value b }
{
    matches!(b, b' ' | b'\t' | b',' | b'(' | b')')
}

struct InValue;

impl ByteKind for InValue {
    ghost is_one = { in_value };

    fn is_one(b: u8) -> bool {
        !ends_value(b)
    }
}

// How many bytes of a value stand from a place on.
pub fn value_width(l: &[u8], from: usize) -> usize
    requires { from ≤ length l.now }
    ensures value { result ≡ span in_value (drop from l.now) }
    ensures result_in_bounds { from + result ≤ length l.now }
{
    after::<InValue>(l, from) - from
}

// The width of a string behind its opening quote: up to the closing one, and on to the value's end.
pub fn string_width(l: &[u8], from: usize) -> usize
    requires { from ≤ length l.now }
    ensures value { result ≡ string_width (drop from l.now) }
    ensures result_in_bounds { from + result ≤ length l.now }
{
    let q = read_quoted(l, from);
    q.width + value_width(l, from + q.width)
}

// Whether a token that begins with a quote is a string.
#[tactic(auto, using(crate::proofs::ValueEnds::string_told))]
pub fn is_string(t: &[u8]) -> bool
    requires { 1 ≤ length t.now }
    ensures { result ≡ is_string t.now }
{
    closes_at_end(read_quoted(t, 1), t.len() - 1)
}

// Whether the string is closed, not too long, and has nothing behind it of its n bytes.
fn closes_at_end(q: Quoted, n: usize) -> bool
    ensures { result ≡ (q.closed && leb q.chars longest_string && eqb q.width n) }
{
    q.closed && q.chars <= LONGEST_STRING && q.width == n
}

// What follows an opening quote, from a place on.
fn read_quoted(l: &[u8], from: usize) -> Quoted
    requires { from ≤ length l.now }
    ensures value { result ≡ quoted 0 0 false (drop from l.now) }
    ensures width_in_bounds { from + result.width ≤ length l.now }
{
    let mut width = 0;
    let mut chars = 0;
    let mut quote = false;
    while from + width < l.len() {
        let b = l[from + width];
        if is_over(quote, b) {
            return Quoted {
                width,
                chars,
                closed: true,
            };
        }
        quote = is_first_quote(quote, b);
        chars += one_unless(quote);
        width += 1;
    }
    Quoted {
        width,
        chars,
        closed: quote,
    }
}

// The quote directly before closed the string, since no other follows it.
fn is_over(quote: bool, b: u8) -> bool
    ensures { result ≡ (quote && not (is_quote b)) }
{
    quote && b != b'\''
}

// A quote that none stands directly before: it closes the string or is the first of two.
fn is_first_quote(quote: bool, b: u8) -> bool
    ensures { result ≡ (not quote && is_quote b) }
{
    !quote && b == b'\''
}

// Such a quote is no character yet.
fn one_unless(quote: bool) -> usize
    ensures value { result ≡ cond quote 0 1 }
    ensures upper_bound { result ≤ 1 }
{
    if quote { 0 } else { 1 }
}

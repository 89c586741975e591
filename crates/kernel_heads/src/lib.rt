// The head of an assignment's line: its name and its operator, and where its value begins.
#![tactic(auto)]

ghost use Rattle.std.specs.Prelude.{◌≡◌, ◌≤◌, ◌&&◌, leb, min, length, drop};
ghost use Rattle.base.specs.Scans.{all};
ghost use Rattle.kernel_rules.specs.Assignments.{equals_at, is_plus, value_at, in_name, is_name, longest_name};
ghost use Rattle.kernel_heads.specs.Parts.{before_equals, Stripped, Named};

use kernel_lines::kinds::{ByteKind, after};
use kernel_lines::line_bytes::{after_gap, is_gap, trim_gaps};

const LONGEST_NAME: usize = 32;

// A part of a line: its first place, and the place behind it.
#[derive(Clone, Copy)]
pub struct Part {
    pub start: usize,
    pub end: usize,
}

// Any byte but `=`.
struct BeforeEquals;

impl ByteKind for BeforeEquals {
    ghost is_one = { before_equals };

    fn is_one(b: u8) -> bool {
        b != b'='
    }
}

// The place of the first `=`, or the line's length.
#[tactic(auto, using(crate::proofs::Heads::equals_found))]
pub fn equals_at(l: &[u8]) -> usize
    ensures value { result ≡ equals_at l.now }
    ensures upper_bound { result ≤ length l.now }
{
    after::<BeforeEquals>(l, 0)
}

// Whether the operator is `+=`.
#[tactic(auto, unfolding(kernel_rules::specs::Assignments::is_plus))]
pub fn is_plus(l: &[u8]) -> bool
    ensures { result ≡ is_plus l.now }
{
    let equals = equals_at(l);
    0 < equals && l[equals - 1] == b'+'
}

// Where the value of an assignment begins; the line's length where there is no operator.
pub fn value_at(l: &[u8]) -> usize
    ensures value { result ≡ min (value_at l.now) (length l.now) }
    ensures l_value { drop result l.now ≡ drop (value_at l.now) l.now }
{
    let equals = equals_at(l);
    if l.len() <= equals {
        return l.len();
    }
    after_gap(l, equals + 1)
}

// The name before the operator.
pub fn name_in(l: &[u8]) -> Part
    ensures { Named l.now result }
{
    let equals = equals_at(l);
    if is_plus(l) {
        return stripped(l, equals - 1);
    }
    stripped(l, equals)
}

// The first n bytes of a line less the blanks and tabs around them.
pub fn stripped(l: &[u8], n: usize) -> Part
    requires { n ≤ length l.now }
    ensures { Stripped l.now n result }
{
    let start = after_gap(l, 0);
    let end = trim_gaps(l, n);
    if end <= start {
        return Part { start, end: start };
    }
    Part { start, end }
}

pub fn is_name(w: &[u8]) -> bool
    ensures { result ≡ is_name w.now }
{
    if !has_name_length(w) {
        return false;
    }
    w[w.len() - 1] != b'+' && all_in_name(w)
}

fn has_name_length(w: &[u8]) -> bool
    ensures { result ≡ (leb 1 (length w.now) && leb (length w.now) longest_name) }
{
    1 <= w.len() && w.len() <= LONGEST_NAME
}

fn all_in_name(w: &[u8]) -> bool
    ensures { result ≡ all in_name w.now }
{
    w.iter().all(|b| in_name(*b))
}

fn in_name(b: u8) -> bool
    ensures { result ≡ in_name b }
{
    !(is_gap(b) || b == b',' || b == b'(' || b == b')')
}

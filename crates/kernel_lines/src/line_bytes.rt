// Bytes of a line: gaps of blanks and tabs, and whether two runs of bytes are the same.
ghost use Rattle.std.specs.Prelude.{◌≡◌, ◌≤◌, length};
ghost use Rattle.kernel_rules.specs.Lines.{is_gap, trim_to, after_gap, same};

use crate::kinds::{ByteKind, Gap, after, trim};

pub fn is_gap(b: u8) -> bool
    ensures { result ≡ is_gap b }
{
    Gap::is_one(b)
}

// How many of the first n bytes are left where blanks and tabs at their end are dropped.
pub fn trim_gaps(l: &[u8], n: usize) -> usize
    requires { n ≤ length l.now }
    ensures value { result ≡ trim_to is_gap l.now n }
    ensures upper_bound { result ≤ n }
{
    trim::<Gap>(l, n)
}

// The place after the blanks and tabs that stand from place i on.
#[tactic(auto, unfolding(kernel_rules::specs::Lines::after_gap))]
pub fn after_gap(l: &[u8], i: usize) -> usize
    requires { i ≤ length l.now }
    ensures value { result ≡ after_gap l.now i }
    ensures lower_bound { (i ≤ result) × (result ≤ length l.now) }
{
    after::<Gap>(l, i)
}

// Byte for byte.
#[tactic(auto, using(crate::proofs::Sameness::pointwise_same))]
pub fn same(a: &[u8], b: &[u8]) -> bool
    ensures { result ≡ same a.now b.now }
{
    a == b
}

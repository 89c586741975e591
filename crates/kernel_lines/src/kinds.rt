// Kinds of bytes, and how far the bytes of one kind reach.
ghost use Rattle.std.specs.Prelude.{◌≡◌, ℕ, Bool, ◌≤◌, length};
ghost use Rattle.rules.specs.Text.{is_blank};
ghost use Rattle.kernel_rules.specs.Lines.{is_gap, trim_to};
ghost use Rattle.kernel_lines.specs.Kinds.{after_span};

pub trait ByteKind {
    ghost is_one: { ℕ → Bool };

    fn is_one(b: u8) -> bool
        ensures { result ≡ is_one b };
}

pub struct Blank;

impl ByteKind for Blank {
    ghost is_one = { is_blank };

    fn is_one(b: u8) -> bool {
        b == b' '
    }
}

// Blanks and tabs.
pub struct Gap;

impl ByteKind for Gap {
    ghost is_one = { is_gap };

    fn is_one(b: u8) -> bool {
        b == b' ' || b == b'\t'
    }
}

// The place after the bytes of a kind that stand from place i on.
pub fn after<K: ByteKind>(l: &[u8], i: usize) -> usize
    requires { i ≤ length l.now }
    ensures value { result ≡ after_span K.is_one l.now i }
    ensures lower_bound { (i ≤ result) × (result ≤ length l.now) }
{
    let mut j = i;
    while j < l.len() && K::is_one(l[j]) {
        j += 1;
    }
    j
}

// How many of the first n bytes are left where those of a kind are dropped at their end.
pub fn trim<K: ByteKind>(l: &[u8], n: usize) -> usize
    requires { n ≤ length l.now }
    ensures value { result ≡ trim_to K.is_one l.now n }
    ensures upper_bound { result ≤ n }
{
    let mut i = n;
    while 0 < i && K::is_one(l[i - 1]) {
        i -= 1;
    }
    i
}

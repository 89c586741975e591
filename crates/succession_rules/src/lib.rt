// The types that the definitions of two tables, an older and a newer, name.
#![tactic(auto)]

use rules::Refusal;
use std::error::Error;
use std::fmt;

// What a newer table must meet to succeed an older one, in the order in which it is asked.
#[derive(Clone, Copy, Debug, PartialEq, Eq)]
pub enum Condition {
    Layout,
    Partition,
    Segment,
    Further,
    Seam,
}

// The first condition that fails, and the first row where it does, from 0; 0 for the layout.
#[derive(Clone, Copy, Debug, PartialEq, Eq)]
pub struct Failure {
    pub condition: Condition,
    pub row: usize,
}

// Whether the newer table succeeds the older, or the first condition that fails.
pub type Succession = Result<(), Failure>;

// Which of two tables is refused, and why. The older is checked first.
#[derive(Clone, Copy, Debug, PartialEq, Eq, Hash)]
pub enum TableRefusal {
    Older(Refusal),
    Newer(Refusal),
}

impl fmt::Display for TableRefusal {
    ghost use Rattle.std.specs.Prelude.{Some};
    ghost use Rattle.succession_rules.specs.Shown.{shown_of};

    ghost output = { λ k. Some (shown_of k) };

    fn fmt<W: fmt::Write>(&self, f: &mut fmt::Formatter<W>) -> fmt::Result {
        match self {
            TableRefusal::Older(refusal) => write!(f, "older table {refusal}"),
            TableRefusal::Newer(refusal) => write!(f, "newer table {refusal}"),
        }
    }
}

impl Error for TableRefusal {}

ghost use Rattle.std.specs.Prelude.{◌≡◌, false};
ghost use Rattle.rules.specs.Listed.{listed};

// A number and a place that no refusal of the table has together.
#[derive(Clone, Copy, Debug, PartialEq, Eq, Hash)]
pub struct Unlisted {
    pub number: u64,
    pub place: Option<usize>,
    pub ghost unlisted: { listed number place ≡ false },
}

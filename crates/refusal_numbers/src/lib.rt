// A refusal's number for the calls whose machine code is looked through: by a comparison and a table of numbers, so that no jump goes by a pointer.
#![tactic(auto)]

ghost use Rattle.std.specs.Prelude.{◌≡◌};
ghost use Rattle.rules.specs.Answer.{number_of};
ghost use Rattle.rules.specs.declared.refusal.Refusal.TheVariants as R;
ghost use Rattle.rules.specs.declared.unlisted.Unlisted.{Unlisted};

use rules::Refusal;

pub fn number(refusal: Refusal) -> u64
    ensures { result ≡ number_of refusal }
{
    match refusal {
        Refusal::Unlisted(k) => k.number,
        _ => listed_number(refusal),
    }
}

// The number of a refusal of the table, and a constant for any other, so that the compiler makes a table of numbers. Never inlined: else it makes
// one choice of this and of its caller's, which has a number that is no constant.
#[inline(never)]
fn listed_number(refusal: Refusal) -> u64
    ensures { ((k : Unlisted) → refusal ≡ R.Unlisted k → ⊥) → result ≡ number_of refusal }
{
    match refusal {
        Refusal::Unlisted(_) => 0,
        _ => refusal.number(),
    }
}

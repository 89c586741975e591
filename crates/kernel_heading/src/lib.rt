// The names with one value: whether each is given as it may be, and their numbers.
#![tactic(auto)]

ghost use Rattle.std.specs.Prelude.{◌≡◌, false, ◌&&◌, ◌||◌, cond, [], ◌∷◌, ◌<◌, eqb, length, get_or, Some, None};
ghost use Rattle.base.specs.Scans.{all_of};
ghost use Rattle.kernel_rules.specs.Tables.{is_list, is_exactly};
ghost use Rattle.kernel_values.specs.Reads.{is_formed};
ghost use Rattle.kernel_find.specs.Slots.{slot_at, Placed};
ghost use Rattle.kernel_heading.specs.Names.{is_system, system_of, single_of, heading_read};

use kernel_rules::Number;
use kernel_values::{One, is_formed, is_unsigned, read_one, unsigned_of};

// n and the delimiter, whether both are exact, and the time system.
#[derive(Clone, Copy)]
pub struct Heading {
    pub exact: bool,
    pub n: u64,
    pub delimiter: u64,
    pub system: u8,
}

// None where one of the names is not given as it may be.
pub fn read_heading(text: &[u8], slots: [usize; 11]) -> Option<Heading>
    requires { Placed (length text.now) slots }
    ensures { result ≡ heading_read (λ k. slot_at text.now (get_or slots k 0)) }
{
    let _id = read_single(text, slots[0], 0)?;
    let kind = read_single(text, slots[1], 1)?;
    let system = read_single(text, slots[2], 2)?;
    let n = read_single(text, slots[3], 3)?;
    let delimiter = read_single(text, slots[6], 6)?;
    if is_typed(kind, system) {
        Some(Heading {
            exact: is_unsigned(n) & is_unsigned(delimiter),
            n: unsigned_of(n),
            delimiter: unsigned_of(delimiter),
            system: system_of(system),
        })
    } else {
        None
    }
}

// The number of the name k at the place `at`, which is 0 where the text does not give it.
fn read_single(text: &[u8], at: usize, k: usize) -> Option<Number>
    requires at_in_bounds { at < length text.now }
    requires k_value { is_list k ≡ false }
    ensures { result ≡ single_of k (slot_at text.now at) }
{
    if at == 0 {
        absent(k)
    } else {
        judged(read_one(text, at), k)
    }
}

// Only the time system may be absent; it is 1 then.
fn absent(k: usize) -> Option<Number>
    ensures { result ≡ cond (eqb k 2) (Some (Number.Plus 1)) None }
{
    if k == 2 { Some(Number::Plus(1)) } else { None }
}

fn judged(one: One, k: usize) -> Option<Number>
    ensures { result ≡ cond (all_of (one.plain ∷ one.single ∷ (eqb k 0 || is_formed one.number) ∷ [])) (Some one.number) None }
{
    if is_given(one.plain, one.single, one.number, k) {
        Some(one.number)
    } else {
        None
    }
}

// With `=`, one value, and that a number, but for the ID.
#[tactic(auto, unfolding(base::specs::Scans::all_of))]
fn is_given(plain: bool, single: bool, number: Number, k: usize) -> bool
    ensures { result ≡ all_of (plain ∷ single ∷ (eqb k 0 || is_formed number) ∷ []) }
{
    plain && single && (k == 0 || is_formed(number))
}

#[tactic(auto, unfolding(kernel_rules::specs::Tables::is_exactly))]
fn is_exactly(k: u64, number: Number) -> bool
    ensures { result ≡ is_exactly k number }
{
    number == Number::Plus(k)
}

// The type is 1, and the system 1 or 2.
fn is_typed(kind: Number, system: Number) -> bool
    ensures { result ≡ (is_exactly 1 kind && is_system system) }
{
    is_exactly(1, kind) && is_system(system)
}

#[tactic(auto, unfolding(crate::specs::Names::is_system))]
fn is_system(number: Number) -> bool
    ensures { result ≡ is_system number }
{
    is_exactly(1, number) || is_exactly(2, number)
}

#[tactic(auto, unfolding(crate::specs::Names::system_of))]
fn system_of(number: Number) -> u8
    ensures { result ≡ system_of number }
{
    if is_exactly(2, number) { 2 } else { 1 }
}

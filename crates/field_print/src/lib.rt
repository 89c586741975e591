// The fields of a count: how many bytes they print to, and writing them, from the last to the first.
#![tactic(auto)]

ghost use Rattle.std.specs.Prelude.{◌≤◌, ◌<◌, ◌≡◌, ◌∷◌, length, get_or};
ghost use Rattle.base.specs.Scans.{product};
ghost use Rattle.rules.specs.Print.{last_digits, field_width, fields_print};
ghost use Rattle.roundtrip.specs.Fields.{AllFields};
ghost use Rattle.print_order.specs.Order.{fields_length};
ghost use Rattle.decimal.specs.Writing.{Room, Written};

// How many bytes the fields of any count print to. A field has at most 20 digits and a delimiter.
pub fn fields_length(moduli: &[u64], offsets: &[u64]) -> usize
    requires { AllFields moduli.now offsets.now }
    ensures value { result ≡ fields_length moduli.now offsets.now }
    ensures upper_bound { result ≤ 210 }
{
    let mut bytes = moduli.len() - 1;
    for i in 0..moduli.len() {
        bytes += field_width(moduli, offsets, i);
    }
    bytes
}

// Writes the fields of a count so that they end at index end, and answers where they start.
pub fn write_fields(
    delimiter: u8,
    count: u64,
    moduli: &[u64],
    offsets: &[u64],
    end: usize,
    buffer: &mut [u8],
) -> usize
    requires all_fields { AllFields moduli.now offsets.now }
    requires count_bound { count < product moduli.now }
    requires room { Room (fields_print delimiter count moduli.now offsets.now) end buffer.old }
    ensures { Written (fields_print delimiter count moduli.now offsets.now) end result buffer.old buffer.new }
{
    let mut rest = count;
    let mut at = end;
    for i in (1..moduli.len()).rev() {
        let modulus = moduli[i];
        let offset = offsets[i];
        let width = field_width(moduli, offsets, i);
        at = write_later_field(delimiter, rest % modulus + offset, width, at, buffer);
        rest /= modulus;
    }
    let width = field_width(moduli, offsets, 0);
    decimal::write_digits(rest + offsets[0], width, at, buffer)
}

// The digits of a field after the first, with the delimiter in front.
fn write_later_field(
    delimiter: u8,
    shown: u64,
    width: usize,
    end: usize,
    buffer: &mut [u8],
) -> usize
    requires { Room (delimiter ∷ last_digits width shown) end buffer.old }
    ensures { Written (delimiter ∷ last_digits width shown) end result buffer.old buffer.new }
{
    let at = decimal::write_digits(shown, width, end, buffer);
    decimal::write_byte(delimiter, at, buffer)
}

// The width of field i, the first being field 0: "that of the largest shown number, modulus plus offset less one".
fn field_width(moduli: &[u64], offsets: &[u64], i: usize) -> usize
    requires all_fields { AllFields moduli.now offsets.now }
    requires i_in_bounds { i < length moduli.now }
    ensures value { result ≡ field_width (get_or moduli.now i 0) (get_or offsets.now i 0) }
    ensures upper_bound { result ≤ 20 }
{
    let modulus = moduli[i];
    let offset = offsets[i];
    decimal::digit_count(modulus + offset - 1)
}

// Prints at the front of the buffer, where they fit: lengths first, then bytes, so that a refusal leaves the buffer.
#![tactic(auto)]

ghost use Rattle.std.specs.Prelude.{◌+◌, ◌<◌, ◌≡◌, [], ◌∷◌, ◌++◌, length};
ghost use Rattle.base.specs.Scans.{product};
ghost use Rattle.rules.specs.Limits.{most_partitions};
ghost use Rattle.rules.specs.Print.{digit_count, fitting, padded, fields_print};
ghost use Rattle.roundtrip.specs.Fields.{AllFields};
ghost use Rattle.decimal.specs.Writing.{Room, Written};
ghost use Rattle.buffer_print.specs.Printed.{Printed};

use field_print::{fields_length, write_fields};
use rules::Refusal;

// The fields of a count.
pub fn print_fields(
    delimiter: u8,
    count: u64,
    moduli: &[u64],
    offsets: &[u64],
    buffer: &mut [u8],
) -> Result<usize, Refusal>
    requires all_fields { AllFields moduli.now offsets.now }
    requires count_bound { count < product moduli.now }
    ensures { Printed (fitting (length buffer.old) (fields_print delimiter count moduli.now offsets.now)) result buffer.old buffer.new }
{
    let count_bytes = fields_length(moduli, offsets);
    if buffer.len() < count_bytes {
        return Err(Refusal::BufferTooShort);
    }
    write_fields(delimiter, count, moduli, offsets, count_bytes, buffer);
    Ok(count_bytes)
}

// The partition's number, `/`, and the fields of a count in that partition.
pub fn print_numbered(
    partition: usize,
    delimiter: u8,
    count: u64,
    moduli: &[u64],
    offsets: &[u64],
    buffer: &mut [u8],
) -> Result<usize, Refusal>
    requires partition_lt_most_partitions { partition < most_partitions }
    requires all_fields { AllFields moduli.now offsets.now }
    requires count_bound { count < product moduli.now }
    ensures { Printed (fitting (length buffer.old) (padded 1 (partition + 1) ++ (47 ∷ fields_print delimiter count moduli.now offsets.now))) result buffer.old buffer.new }
{
    let number = partition as u64 + 1;
    let digits = decimal::digit_count(number);
    let stamp_bytes = digits + 1 + fields_length(moduli, offsets);
    if buffer.len() < stamp_bytes {
        return Err(Refusal::BufferTooShort);
    }
    let at = write_fields(delimiter, count, moduli, offsets, stamp_bytes, buffer);
    write_number(number, digits, at, buffer);
    Ok(stamp_bytes)
}

// A partition's number and `/`.
fn write_number(number: u64, digits: usize, end: usize, buffer: &mut [u8]) -> usize
    requires digits_value { digits ≡ digit_count number }
    requires room { Room (padded 1 number ++ (47 ∷ [])) end buffer.old }
    ensures { Written (padded 1 number ++ (47 ∷ [])) end result buffer.old buffer.new }
{
    let at = decimal::write_byte(b'/', end, buffer);
    decimal::write_digits(number, digits, at, buffer)
}

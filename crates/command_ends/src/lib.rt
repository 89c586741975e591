// The first and the last lines of a table's description, put into a buffer. Each function answers the place after what it put.
#![tactic(auto)]

ghost use Rattle.std.specs.Prelude.{[], ◌∷◌, ◌++◌, ◌+◌, ◌*◌, ◌≤◌, length};
ghost use Rattle.rules.specs.Facts.{LayoutFacts};
ghost use Rattle.rules.specs.Limits.{most_fields, last_delimiter};
ghost use Rattle.decimal.specs.Writing.{Written};
ghost use Rattle.number_text.specs.Numbers.{decimal_of, longest_number};
ghost use Rattle.command_rules.specs.Describe.{system_name, clock_line, system_line, delimiter_line, head_text};
ghost use Rattle.command_ends.specs.Ends.{longest_clock, longest_system, longest_delimiter, longest_field, longest_head, longest_number_line, longest_tail, field_row, field_rows, table_lines, jump_lines, tail_lines, FieldsIn};

use number_text::{put_byte, put_bytes, put_number, put_time};
use print::delimiter_byte;
use rules::Layout;

const TAB: u8 = b'\t';

const LINE_END: u8 = b'\n';

// The clock, the time system, the delimiter and the fields.
pub fn put_head(out: &mut [u8], clock: i64, system: u8, layout: Layout) -> usize
    requires layout_facts { LayoutFacts layout }
    requires longest_head_in_bounds { longest_head ≤ length out.old }
    ensures written { Written (head_text clock system layout) result 0 out.old out.new }
    ensures upper_bound { result ≤ longest_head }
{
    let n = layout.n;
    let moduli = layout.moduli;
    let offsets = layout.offsets;
    let clocked = put_clock(out, 0, clock);
    let timed = put_system(out, clocked, system);
    let delimited = put_delimiter(out, timed, layout.delimiter);
    put_fields(out, delimited, n, &moduli, &offsets)
}

fn put_clock(out: &mut [u8], at: usize, clock: i64) -> usize
    requires { at + longest_clock ≤ length out.old }
    ensures written { Written (clock_line clock) result at out.old out.new }
    ensures upper_bound { result ≤ at + longest_clock }
{
    let place = put_bytes(out, at, b"clock\t");
    put_time(out, place, clock, LINE_END)
}

fn put_system(out: &mut [u8], at: usize, system: u8) -> usize
    requires { at + longest_system ≤ length out.old }
    ensures written { Written (system_line system) result at out.old out.new }
    ensures upper_bound { result ≤ at + longest_system }
{
    let place = put_titled(out, at, b"time system\t", system as u64, TAB);
    put_system_name(out, place, system)
}

// The name of a time system and byte 10.
fn put_system_name(out: &mut [u8], at: usize, system: u8) -> usize
    requires { at + 4 ≤ length out.old }
    ensures written { Written (system_name system ++ (10 ∷ [])) result at out.old out.new }
    ensures upper_bound { result ≤ at + 4 }
{
    if system == 1 {
        return put_bytes(out, at, b"TDB\n");
    }
    put_bytes(out, at, b"TDT\n")
}

fn put_delimiter(out: &mut [u8], at: usize, code: u8) -> usize
    requires le_code { (1 ≤ code) × (code ≤ last_delimiter) }
    requires longest_delimiter_in_bounds { at + longest_delimiter ≤ length out.old }
    ensures written { Written (delimiter_line code) result at out.old out.new }
    ensures upper_bound { result ≤ at + longest_delimiter }
{
    let place = put_titled(out, at, b"delimiter\t", code as u64, TAB);
    let end = put_byte(out, place, delimiter_byte(code));
    put_byte(out, end, LINE_END)
}

// The lines of the first n fields.
fn put_fields(out: &mut [u8], at: usize, n: usize, moduli: &[u64], offsets: &[u64]) -> usize
    requires fields_in { FieldsIn n moduli.now offsets.now }
    requires longest_field_in_bounds { at + most_fields * longest_field ≤ length out.old }
    ensures written { Written (field_rows moduli.now offsets.now n) result at out.old out.new }
    ensures upper_bound { result ≤ at + most_fields * longest_field }
{
    let mut place = at;
    for i in 0..n {
        place = put_field(out, place, i as u64 + 1, moduli[i], offsets[i]);
    }
    place
}

// A field by its number, from 1.
fn put_field(out: &mut [u8], at: usize, number: u64, modulus: u64, offset: u64) -> usize
    requires { at + longest_field ≤ length out.old }
    ensures written { Written (field_row number modulus offset) result at out.old out.new }
    ensures upper_bound { result ≤ at + longest_field }
{
    let numbered = put_titled(out, at, b"field\t", number, TAB);
    let place = put_number(out, numbered, modulus, TAB);
    put_number(out, place, offset, LINE_END)
}

// How many there are of what a table has: fields, partitions, counts up to the total; segments, gaps, steps back.
pub fn put_tail(
    out: &mut [u8],
    fields: u64,
    partitions: u64,
    total: u64,
    segments: u64,
    gaps: u64,
    backs: u64,
) -> usize
    requires { longest_tail ≤ length out.old }
    ensures written { Written (tail_lines fields partitions total segments gaps backs) result 0 out.old out.new }
    ensures upper_bound { result ≤ longest_tail }
{
    let place = put_table(out, 0, fields, partitions, total);
    put_jumps(out, place, segments, gaps, backs)
}

fn put_table(out: &mut [u8], at: usize, fields: u64, partitions: u64, total: u64) -> usize
    requires { at + 3 * longest_number_line ≤ length out.old }
    ensures written { Written (table_lines fields partitions total) result at out.old out.new }
    ensures upper_bound { result ≤ at + 3 * longest_number_line }
{
    let first = put_titled(out, at, b"fields\t", fields, LINE_END);
    let second = put_titled(out, first, b"partitions\t", partitions, LINE_END);
    put_titled(out, second, b"total\t", total, LINE_END)
}

fn put_jumps(out: &mut [u8], at: usize, segments: u64, gaps: u64, backs: u64) -> usize
    requires { at + 3 * longest_number_line ≤ length out.old }
    ensures written { Written (jump_lines segments gaps backs) result at out.old out.new }
    ensures upper_bound { result ≤ at + 3 * longest_number_line }
{
    let first = put_titled(out, at, b"segments\t", segments, LINE_END);
    let second = put_titled(out, first, b"gaps\t", gaps, LINE_END);
    put_titled(out, second, b"steps back\t", backs, LINE_END)
}

// A title, a number and one byte after it.
pub fn put_titled(out: &mut [u8], at: usize, title: &[u8], number: u64, after: u8) -> usize
    requires { at + length title.now + longest_number + 1 ≤ length out.old }
    ensures written { Written (title.now ++ (decimal_of number ++ (after ∷ []))) result at out.old out.new }
    ensures upper_bound { result ≤ at + length title.now + longest_number + 1 }
{
    let place = put_bytes(out, at, title);
    put_number(out, place, number, after)
}

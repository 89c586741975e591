// The partitions of a table's description, a line each, put into a buffer as far as it goes.
#![tactic(auto)]

ghost use Rattle.std.specs.Prelude.{◌+◌, ◌≤◌, length};
ghost use Rattle.rules.specs.Partitions.{partitions};
ghost use Rattle.encode.specs.Listed.{Listed};
ghost use Rattle.decimal.specs.Writing.{Written};
ghost use Rattle.command_rules.specs.Describe.{partition_line};
ghost use Rattle.command_rows.specs.Rows.{RowsPut, partition_row, longest_partition};

use command_ends::put_titled;
use encode::lengths_before;
use number_text::put_number;

const TAB: u8 = b'\t';

const LINE_END: u8 = b'\n';

// `partition`, a tab, four numbers of 20 digits and a byte behind each.
pub const LONGEST_PARTITION: usize = 94;

// The row to go on with, and how many bytes were put.
#[derive(Clone, Copy)]
pub struct Rows {
    pub next: usize,
    pub put: usize,
}

// Puts the partitions from row `from` on to the front of the buffer, until none is left or the buffer has no room for the longest line.
pub fn put_partitions(starts: &[u64], ends: &[u64], from: usize, out: &mut [u8]) -> Rows
    requires listed { Listed (partitions starts.now ends.now) }
    requires from_in_bounds { from ≤ length starts.now }
    requires longest_partition_in_bounds { longest_partition ≤ length out.old }
    ensures { RowsPut (partition_line (partitions starts.now ends.now)) (length starts.now) from result.next result.put out.old out.new }
{
    // the last place with room for the longest line
    let last = out.len() - LONGEST_PARTITION;
    let mut first = lengths_before(starts, ends, from);
    let mut put = 0;
    for i in from..starts.len() {
        if last < put {
            return Rows { next: i, put };
        }
        let start = starts[i];
        let end = ends[i];
        put = put_partition(out, put, i as u64 + 1, start, end, first);
        first += end - start;
    }
    Rows {
        next: starts.len(),
        put,
    }
}

// A partition by its number, from 1, with the encoded count of its start.
pub fn put_partition(
    out: &mut [u8],
    at: usize,
    number: u64,
    start: u64,
    end: u64,
    first: u64,
) -> usize
    requires { at + longest_partition ≤ length out.old }
    ensures written { Written (partition_row number start end first) result at out.old out.new }
    ensures upper_bound { result ≤ at + longest_partition }
{
    let numbered = put_titled(out, at, b"partition\t", number, TAB);
    let started = put_number(out, numbered, start, TAB);
    let ended = put_number(out, started, end, TAB);
    put_number(out, ended, first, LINE_END)
}

// The calls for a host program in C (include/stitchwold.h), on numbers and byte slices only. Each answers as the inner call on the
// same numbers: a count or a length as itself, a refusal as its number's negative.
#![tactic(auto)]

ghost use Rattle.std.specs.Prelude.{◌≡◌, length};
ghost use Rattle.rules.specs.Text.{read_text};
ghost use Rattle.rules.specs.Stamp.{read_stamp};
ghost use Rattle.rules.specs.Message.{read_message};
ghost use Rattle.rules.specs.Print.{print_count, print_stamp, length_printed, buffer_after};
ghost use Rattle.rules.specs.Time.{time_of, count_at};
ghost use Rattle.c_rules.specs.Tables.{layout_from, partitions_from, segments_from};
ghost use Rattle.c_rules.specs.Calls.{returned, count_read, count_given, time_written, zero_given};

use byte_stamps::{print_stamp, read_message, read_stamp};
use byte_tables::layout::layout_of;
use byte_times::{count_at, time_of};
use c_given::{count_given, count_read, length_given, time_given};
use print::print_count;
use text::read_text;

pub fn sclk_read_text(n: u64, delimiter: u64, moduli: &[u8], offsets: &[u8], text: &[u8]) -> i64
    ensures { result ≡ returned (count_read (read_text (layout_from n delimiter moduli.now offsets.now) text.now)) }
{
    let layout = layout_of(n, delimiter, moduli, offsets);
    count_read(read_text(layout, text))
}

pub fn sclk_read_stamp(
    n: u64,
    delimiter: u64,
    moduli: &[u8],
    offsets: &[u8],
    starts: &[u8],
    ends: &[u8],
    text: &[u8],
) -> i64
    ensures { result ≡ returned (count_read (read_stamp (layout_from n delimiter moduli.now offsets.now) (partitions_from starts.now ends.now) text.now)) }
{
    let layout = layout_of(n, delimiter, moduli, offsets);
    count_read(read_stamp(layout, starts, ends, text))
}

pub fn sclk_read_message(
    n: u64,
    delimiter: u64,
    moduli: &[u8],
    offsets: &[u8],
    starts: &[u8],
    ends: &[u8],
    message: &[u8],
) -> i64
    ensures { result ≡ returned (count_read (read_message (layout_from n delimiter moduli.now offsets.now) (partitions_from starts.now ends.now) message.now)) }
{
    let layout = layout_of(n, delimiter, moduli, offsets);
    count_read(read_message(layout, starts, ends, message))
}

pub fn sclk_print_count(
    n: u64,
    delimiter: u64,
    moduli: &[u8],
    offsets: &[u8],
    count: u64,
    buffer: &mut [u8],
) -> i64
    ensures value { result ≡ returned (length_printed (print_count (layout_from n delimiter moduli.now offsets.now) count (length buffer.old))) }
    ensures buffer_after { buffer.new ≡ buffer_after (print_count (layout_from n delimiter moduli.now offsets.now) count (length buffer.old)) buffer.old }
{
    let layout = layout_of(n, delimiter, moduli, offsets);
    length_given(print_count(layout, count, buffer))
}

pub fn sclk_print_stamp(
    n: u64,
    delimiter: u64,
    moduli: &[u8],
    offsets: &[u8],
    starts: &[u8],
    ends: &[u8],
    count: u64,
    buffer: &mut [u8],
) -> i64
    ensures value { result ≡ returned (length_printed (print_stamp (layout_from n delimiter moduli.now offsets.now) (partitions_from starts.now ends.now) count (length buffer.old))) }
    ensures buffer_after { buffer.new ≡ buffer_after (print_stamp (layout_from n delimiter moduli.now offsets.now) (partitions_from starts.now ends.now) count (length buffer.old)) buffer.old }
{
    let layout = layout_of(n, delimiter, moduli, offsets);
    length_given(print_stamp(layout, starts, ends, count, buffer))
}

pub fn sclk_time_of(
    n: u64,
    delimiter: u64,
    moduli: &[u8],
    offsets: &[u8],
    starts: &[u8],
    ends: &[u8],
    counts: &[u8],
    times: &[u8],
    rates: &[u8],
    count: u64,
    time: &mut [u8],
) -> i64
    ensures value { result ≡ returned (zero_given (time_written (time_of (layout_from n delimiter moduli.now offsets.now) (partitions_from starts.now ends.now) (segments_from counts.now times.now rates.now) count) (length time.old))) }
    ensures time_after { time.new ≡ buffer_after (time_written (time_of (layout_from n delimiter moduli.now offsets.now) (partitions_from starts.now ends.now) (segments_from counts.now times.now rates.now) count) (length time.old)) time.old }
{
    let answer = time_of(
        n, delimiter, moduli, offsets, starts, ends, counts, times, rates, count,
    );
    time_given(answer, time)
}

pub fn sclk_count_at(
    n: u64,
    delimiter: u64,
    moduli: &[u8],
    offsets: &[u8],
    starts: &[u8],
    ends: &[u8],
    counts: &[u8],
    times: &[u8],
    rates: &[u8],
    time: i64,
) -> i64
    ensures { result ≡ returned (count_given (count_at (layout_from n delimiter moduli.now offsets.now) (partitions_from starts.now ends.now) (segments_from counts.now times.now rates.now) time)) }
{
    let answer = count_at(
        n, delimiter, moduli, offsets, starts, ends, counts, times, rates, time,
    );
    count_given(answer)
}

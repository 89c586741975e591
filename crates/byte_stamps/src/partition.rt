// Between a clock's count in a partition and its encoded count, partition by partition where they lie.
ghost use Rattle.std.specs.Prelude.{◌≡◌, ◌≤◌, length};
ghost use Rattle.rules.specs.Partitions.{lengths_before};
ghost use Rattle.rules.specs.Stamp.{encode_named, encode_first};
ghost use Rattle.rules.specs.Print.{partition_of, decoded_in};
ghost use Rattle.encode.specs.Listed.{Listed};
ghost use Rattle.decode.specs.Decodable.{Decodable};
ghost use Rattle.c_rules.specs.Numbers.{numbers};
ghost use Rattle.c_rules.specs.Tables.{partitions_from};
ghost use Rattle.rules.specs.Answer.{answer_of};

use byte_lists::{number_at, rows};
use decode::Decoded;
use encode::is_within;
use rules::Refusal;
use wide::less;

// In the first partition that holds the count.
pub fn encode_first(starts: &[u8], ends: &[u8], count: u64) -> Result<u64, Refusal>
    requires { Listed (partitions_from starts.now ends.now) }
    ensures { answer_of result ≡ encode_first (partitions_from starts.now ends.now) count }
{
    let mut before: u64 = 0;
    for i in 0..rows(starts) {
        let start = number_at(starts, i);
        let end = number_at(ends, i);
        if is_within(start, end, count) {
            return Ok(before + (count - start));
        }
        before += end - start;
    }
    Err(Refusal::OutsidePartition)
}

// In the partition of the number given; partitions are numbered from 1.
#[tactic(auto, unfolding(rules::specs::Stamp::encode_named, rules::specs::Answer::unless))]
pub fn encode_named(starts: &[u8], ends: &[u8], number: u64, count: u64) -> Result<u64, Refusal>
    requires { Listed (partitions_from starts.now ends.now) }
    ensures { answer_of result ≡ encode_named (partitions_from starts.now ends.now) number count }
{
    if number < 1 || (rows(starts) as u64) < number {
        return Err(Refusal::NoSuchPartition);
    }
    let i = (number - 1) as usize;
    let start = number_at(starts, i);
    if is_within(start, number_at(ends, i), count) {
        let before = lengths_before(starts, ends, i);
        return Ok(before + (count - start));
    }
    Err(Refusal::OutsidePartition)
}

// The lengths of the partitions before this row, added up.
fn lengths_before(starts: &[u8], ends: &[u8], row: usize) -> u64
    requires listed { Listed (partitions_from starts.now ends.now) }
    requires row_in_bounds { row ≤ length (numbers starts.now) }
    ensures { result ≡ lengths_before (partitions_from starts.now ends.now) row }
{
    let mut before: u64 = 0;
    for i in 0..row {
        // Compared before it is subtracted, a start is read as one word.
        before += less(number_at(ends, i), number_at(starts, i));
    }
    before
}

// The partition of an encoded count, and the clock's count in it.
pub fn decode(starts: &[u8], ends: &[u8], encoded: u64) -> Decoded
    requires { Decodable (partitions_from starts.now ends.now) encoded }
    ensures partition_value { result.partition ≡ partition_of (partitions_from starts.now ends.now) encoded }
    ensures count_value { result.count ≡ decoded_in (partitions_from starts.now ends.now) encoded (partition_of (partitions_from starts.now ends.now) encoded) }
{
    let last = rows(starts) - 1;
    let mut before = 0;
    for i in 0..last {
        let start = number_at(starts, i);
        let next = before + (number_at(ends, i) - start);
        if encoded < next {
            return Decoded {
                partition: i,
                count: start + (encoded - before),
            };
        }
        before = next;
    }
    Decoded {
        partition: last,
        count: number_at(starts, last) + (encoded - before),
    }
}

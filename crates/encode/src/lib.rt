// A clock's count, in a partition that is named or found, to its encoded count.
#![tactic(auto)]

ghost use Rattle.std.specs.Prelude.{◌≡◌, ◌&&◌, ◌≤◌, leb, length};
ghost use Rattle.rules.specs.Partitions.{partitions, lengths_before};
ghost use Rattle.rules.specs.Stamp.{encode_named, encode_first};
ghost use Rattle.encode.specs.Listed.{Listed};
ghost use Rattle.rules.specs.Answer.{answer_of};

use rules::Refusal;

// In the first partition that holds the count.
pub fn encode_first(starts: &[u64], ends: &[u64], count: u64) -> Result<u64, Refusal>
    requires { Listed (partitions starts.now ends.now) }
    ensures { answer_of result ≡ encode_first (partitions starts.now ends.now) count }
{
    let mut before: u64 = 0;
    for i in 0..starts.len() {
        let start = starts[i];
        let end = ends[i];
        if is_within(start, end, count) {
            return Ok(before + (count - start));
        }
        before += end - start;
    }
    Err(Refusal::OutsidePartition)
}

// In the partition of the number given; partitions are numbered from 1.
#[tactic(auto, unfolding(rules::specs::Stamp::encode_named, rules::specs::Answer::unless))]
pub fn encode_named(starts: &[u64], ends: &[u64], number: u64, count: u64) -> Result<u64, Refusal>
    requires { Listed (partitions starts.now ends.now) }
    ensures { answer_of result ≡ encode_named (partitions starts.now ends.now) number count }
{
    if number < 1 || (starts.len() as u64) < number {
        return Err(Refusal::NoSuchPartition);
    }
    let i = (number - 1) as usize;
    let start = starts[i];
    if is_within(start, ends[i], count) {
        let before = lengths_before(starts, ends, i);
        return Ok(before + (count - start));
    }
    Err(Refusal::OutsidePartition)
}

// Both included.
pub fn is_within(start: u64, end: u64, count: u64) -> bool
    ensures { result ≡ (leb start count && leb count end) }
{
    start <= count && count <= end
}

// The lengths of the partitions before this row, added up: the encoded count of its start.
pub fn lengths_before(starts: &[u64], ends: &[u64], row: usize) -> u64
    requires listed { Listed (partitions starts.now ends.now) }
    requires row_in_bounds { row ≤ length starts.now }
    ensures { result ≡ lengths_before (partitions starts.now ends.now) row }
{
    let mut before: u64 = 0;
    for i in 0..row {
        before += ends[i] - starts[i];
    }
    before
}

// The partition of an encoded count, and the clock's count in it.
#![tactic(auto)]

ghost use Rattle.std.specs.Prelude.{◌≡◌};
ghost use Rattle.rules.specs.Partitions.{partitions};
ghost use Rattle.rules.specs.Print.{partition_of, decoded_in};
ghost use Rattle.decode.specs.Decodable.{Decodable};

#[derive(Clone, Copy)]
pub struct Decoded {
    // The partition's index, from 0.
    pub partition: usize,
    pub count: u64,
}

pub fn decode(starts: &[u64], ends: &[u64], encoded: u64) -> Decoded
    requires { Decodable (partitions starts.now ends.now) encoded }
    ensures partition_value { result.partition ≡ partition_of (partitions starts.now ends.now) encoded }
    ensures count_value { result.count ≡ decoded_in (partitions starts.now ends.now) encoded (partition_of (partitions starts.now ends.now) encoded) }
{
    let last = starts.len() - 1;
    let mut before = 0;
    for i in 0..last {
        let next = before + (ends[i] - starts[i]);
        if encoded < next {
            return Decoded {
                partition: i,
                count: starts[i] + (encoded - before),
            };
        }
        before = next;
    }
    Decoded {
        partition: last,
        count: starts[last] + (encoded - before),
    }
}

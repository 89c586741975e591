// Seconds with microseconds to a count of 256 a second.
#![tactic(auto)]

ghost use Rattle.std.specs.Prelude.{◌≡◌};
ghost use Rattle.raw_rules.specs.Seconds.{read_seconds};
ghost use Rattle.rules.specs.Answer.{answer_of};

use rules::Refusal;

const LARGEST_MICROSECOND: u32 = 999_999;

// The subtick is the nearest one, half up. One of 256 is the next second's 0: the sum carries it.
#[tactic(auto, using(raw_rules::proofs::Seconds::carry_sum), unfolding(raw_rules::specs::Seconds::read_seconds, raw_rules::specs::Seconds::subtick_of, base::specs::Rounding::round_down, rules::specs::Answer::unless))]
pub fn read_seconds(seconds: u32, microseconds: u32) -> Result<u64, Refusal>
    ensures { answer_of result ≡ read_seconds seconds microseconds }
{
    if LARGEST_MICROSECOND < microseconds {
        return Err(Refusal::TooManyMicroseconds);
    }
    let subtick = (512 * (microseconds as u64) + 1_000_256) / 2_000_000;
    Ok((seconds as u64) * 256 + subtick)
}

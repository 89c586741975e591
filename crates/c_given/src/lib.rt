// What comes back to the host: a count or a length as itself, a refusal as its number's negative, a time in a lent buffer.
#![tactic(auto)]

ghost use Rattle.std.specs.Prelude.{◌≡◌, ◌^◌, ◌≤◌, ◌<◌, pos, neg_ℤ, length};
ghost use Rattle.rules.specs.Print.{fitting, buffer_after};
ghost use Rattle.c_rules.specs.Numbers.{time_bytes};
ghost use Rattle.c_rules.specs.Calls.{returned, count_read, count_given, time_written, zero_given};
ghost use Rattle.c_outcomes.specs.Results.{Returnable};
ghost use Rattle.rules.specs.Answer.{answer_of};

use byte_lists::put_time;
use rules::{CountAtTime, Reading, Refusal, TimeOfCount};

#[tactic(auto, unfolding(c_rules::specs::Calls::count_read, rules::specs::Answer::and_then))]
pub fn count_read(answer: Result<Reading, Refusal>) -> i64
    requires { Returnable (count_read (answer_of answer)) }
    ensures { result ≡ returned (count_read (answer_of answer)) }
{
    returned(answer.map(|r| r.count))
}

#[tactic(auto, unfolding(c_rules::specs::Calls::count_given, rules::specs::Answer::and_then))]
pub fn count_given(answer: Result<CountAtTime, Refusal>) -> i64
    requires { Returnable (count_given (answer_of answer)) }
    ensures { result ≡ returned (count_given (answer_of answer)) }
{
    returned(answer.map(|c| c.count))
}

pub fn length_given(answer: Result<usize, Refusal>) -> i64
    requires { Returnable (answer_of answer) }
    ensures { result ≡ returned (answer_of answer) }
{
    returned(answer.map(|n| n as u64))
}

#[tactic(auto, unfolding(c_rules::specs::Calls::returned))]
fn returned(answer: Result<u64, Refusal>) -> i64
    requires { Returnable (answer_of answer) }
    ensures { result ≡ returned (answer_of answer) }
{
    match answer {
        Ok(n) => n as i64,
        Err(k) => -(refusal_numbers::number(k) as i64),
    }
}

// The time goes to the buffer where it fits, and 0 comes back.
pub fn time_given(answer: Result<TimeOfCount, Refusal>, buffer: &mut [u8]) -> i64
    requires { Returnable (zero_given (time_written (answer_of answer) (length buffer.old))) }
    ensures value { result ≡ returned (zero_given (time_written (answer_of answer) (length buffer.old))) }
    ensures buffer_after { buffer.new ≡ buffer_after (time_written (answer_of answer) (length buffer.old)) buffer.old }
{
    returned(write_time(answer, buffer))
}

#[tactic(auto, unfolding(c_rules::specs::Numbers::time_bytes, c_rules::specs::Numbers::bytes_of, c_rules::specs::Calls::zero_given, c_rules::specs::Calls::time_written, rules::specs::Print::fitting, rules::specs::Print::buffer_after, rules::specs::Answer::and_then, rules::specs::Answer::unless))]
fn write_time(answer: Result<TimeOfCount, Refusal>, buffer: &mut [u8]) -> Result<u64, Refusal>
    ensures value { answer_of result ≡ zero_given (time_written (answer_of answer) (length buffer.old)) }
    ensures buffer_after { buffer.new ≡ buffer_after (time_written (answer_of answer) (length buffer.old)) buffer.old }
{
    let t = answer?;
    if buffer.len() < 8 {
        return Err(Refusal::BufferTooShort);
    }
    put_time(buffer, t.time);
    Ok(0)
}

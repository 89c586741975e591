// One segment's line, in both directions.
#![tactic(auto)]

ghost use Rattle.std.specs.Prelude.{◌≡◌};
ghost use Rattle.rules.specs.Segments.{line_at};
ghost use Rattle.rules.specs.Time.{ticks_since};
ghost use Rattle.segment_line.specs.Line.{ToTime, ToTicks};

use rules::Segment;

// The time that the line reaches at the count `e`, rounded up. Neither quotient here is ever too large.
pub fn time_on(unit: u64, segment: Segment, e: u64) -> i64
    requires { ToTime unit segment e }
    ensures { result ≡ line_at unit segment e }
{
    let time = segment.time;
    match quotient::div_up(segment.rate, e - segment.count, unit) {
        Some(q) => signed::later(time, q),
        None => time,
    }
}

// The whole ticks from the segment's own time to `t`.
pub fn ticks_on(unit: u64, segment: Segment, t: i64) -> u64
    requires { ToTicks unit segment t }
    ensures { result ≡ ticks_since unit segment t }
{
    match quotient::div_down(signed::elapsed(segment.time, t), unit, segment.rate) {
        Some(q) => q,
        None => 0,
    }
}

// The segment of a count or of a time: the last row that has begun, by halving a list that grows.
#![tactic(auto)]

ghost use Rattle.std.specs.Prelude.{◌≡◌};
ghost use Rattle.base.specs.Scans.{greatest_below};
ghost use Rattle.rules.specs.Time.{segment_of, segment_at};
ghost use Rattle.segment_search.specs.Found.{found};
ghost use Rattle.segment_search.specs.Growing.{CountsGrow, TimesGrow};

pub fn row_of_count(counts: &[u64], e: u64) -> Option<usize>
    requires { CountsGrow counts.now }
    ensures { found result ≡ segment_of counts.now e }
{
    let mut low = 0;
    let mut high = counts.len();
    while low < high {
        let middle = low + (high - low) / 2;
        if e < counts[middle] {
            high = middle;
        } else {
            low = middle + 1;
        }
    }
    last_of(low)
}

pub fn row_of_time(times: &[i64], t: i64) -> Option<usize>
    requires { TimesGrow times.now }
    ensures { found result ≡ segment_at times.now t }
{
    let mut low = 0;
    let mut high = times.len();
    while low < high {
        let middle = low + (high - low) / 2;
        if t < times[middle] {
            high = middle;
        } else {
            low = middle + 1;
        }
    }
    last_of(low)
}

// The last of the rows that have begun.
pub fn last_of(begun: usize) -> Option<usize>
    ensures { found result ≡ greatest_below begun }
{
    if begun == 0 {
        return None;
    }
    Some(begun - 1)
}

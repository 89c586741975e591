// The question of a script that reads a kernel text. The lent lists are as long as the line says, and each entry is one number before the call.
#![tactic(auto)]

ghost use Rattle.std.specs.Prelude.{◌≤◌, length};
ghost use Rattle.put.specs.Places.{Put};

use script_names::Numbers;
use script_words::hex::read_bytes;
use script_words::numbers::lent_length;

// The most bytes of a kernel text.
const MOST_BYTES: usize = 65_600;

// The most entries of a lent list.
const MOST_ENTRIES: usize = 40;

const BEFORE: u64 = 99;

const TIME_BEFORE: i64 = 99;

// Puts the answer at `place`, and answers the place after it. The line's numbers, the clock's ordinal and the lengths, end at `rest`.
pub fn read_kernel(
    numbers: &Numbers,
    line: &[u8],
    rest: usize,
    out: &mut [u8],
    place: usize,
) -> usize
    requires { rest ≤ length line.now }
    ensures { Put place out.old result }
{
    let mut bytes = [0u8; MOST_BYTES];
    match read_bytes(line, rest, &mut bytes) {
        Some(n) => ask(numbers, &bytes[..n], out, place),
        None => answers::put_bad(out, place),
    }
}

// Lends the lists of segments, then the others.
fn ask(numbers: &Numbers, text: &[u8], out: &mut [u8], place: usize) -> usize
    ensures { Put place out.old result }
{
    let mut counts = [BEFORE; MOST_ENTRIES];
    let mut times = [TIME_BEFORE; MOST_ENTRIES];
    let mut rates = [BEFORE; MOST_ENTRIES];
    let c = entries(numbers[5]);
    let t = entries(numbers[6]);
    let r = entries(numbers[7]);
    ask_over(
        numbers,
        text,
        &mut counts[..c],
        &mut times[..t],
        &mut rates[..r],
        out,
        place,
    )
}

fn ask_over(
    numbers: &Numbers,
    text: &[u8],
    counts: &mut [u64],
    times: &mut [i64],
    rates: &mut [u64],
    out: &mut [u8],
    place: usize,
) -> usize
    ensures { Put place out.old result }
{
    let mut moduli = [BEFORE; MOST_ENTRIES];
    let mut offsets = [BEFORE; MOST_ENTRIES];
    let mut starts = [BEFORE; MOST_ENTRIES];
    let mut ends = [BEFORE; MOST_ENTRIES];
    let m = entries(numbers[1]);
    let o = entries(numbers[2]);
    let s = entries(numbers[3]);
    let e = entries(numbers[4]);
    kernel_answers::put_kernel(
        text,
        signed::from_ordinal(numbers[0]),
        &mut moduli[..m],
        &mut offsets[..o],
        &mut starts[..s],
        &mut ends[..e],
        counts,
        times,
        rates,
        out,
        place,
    )
}

fn entries(number: u64) -> usize
    ensures { result ≤ 40 }
{
    lent_length(number, MOST_ENTRIES as u64)
}

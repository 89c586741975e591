// A kernel text read by the one call, and its answer put as a line of a script's answers. Behind what the call answered stands each lent list, whole, whatever the answer.
#![tactic(auto)]

ghost use Rattle.put.specs.Places.{Put};

use kernel_rules::Kernel;
use put::Word;

const LINE_END: u8 = b'\n';

const BLANK: u8 = b' ';

// Puts the line at `at` as far as there is room, and answers the place after it.
pub fn put_kernel(
    text: &[u8],
    clock: i64,
    moduli: &mut [u64],
    offsets: &mut [u64],
    starts: &mut [u64],
    ends: &mut [u64],
    counts: &mut [u64],
    times: &mut [i64],
    rates: &mut [u64],
    out: &mut [u8],
    at: usize,
) -> usize
    ensures { Put at out.old result }
{
    let answer = kernel::read_kernel(
        text, clock, moduli, offsets, starts, ends, counts, times, rates,
    );
    let place = match answer {
        Ok(kernel) => put_read(out, at, kernel),
        Err(refusal) => put::refusal(out, at, refusal),
    };
    let place = put_list(out, place, moduli);
    let place = put_list(out, place, offsets);
    let place = put_list(out, place, starts);
    let place = put_list(out, place, ends);
    let place = put_list(out, place, counts);
    let place = put_list(out, place, times);
    let place = put_list(out, place, rates);
    put::byte(out, place, LINE_END)
}

fn put_read(out: &mut [u8], at: usize, kernel: Kernel) -> usize
    ensures { Put at out.old result }
{
    let place = put_word(out, at, b"ok ", kernel.n as u64);
    let place = put_word(out, place, b" ", kernel.delimiter as u64);
    let place = put_word(out, place, b" ", kernel.system as u64);
    let place = put_word(out, place, b" ", kernel.partitions as u64);
    put_word(out, place, b" ", kernel.segments as u64)
}

fn put_word(out: &mut [u8], at: usize, head: &[u8], number: u64) -> usize
    ensures { Put at out.old result }
{
    let place = put::text(out, at, head);
    put::number(out, place, number)
}

fn put_list<T: Word>(out: &mut [u8], at: usize, list: &[T]) -> usize
    ensures { Put at out.old result }
{
    let place = put::byte(out, at, BLANK);
    put::list(out, place, list)
}

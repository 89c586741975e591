// The lines of an input that comes in chunks. A line buffer that the program lends keeps the first bytes of the line under way:
// with room for one byte more than the longest line has, what is kept tells whether a line is too long.
#![tactic(auto)]

ghost use Rattle.std.specs.Prelude.{◌≡◌, ◌+◌, ◌-◌, ◌≤◌, min, length, drop};
ghost use Rattle.std.proofs.Math.Seq.{paste};
ghost use Rattle.lines.specs.Steps.{line_in, next_line, line_after, Onward};

const LINE_END: u8 = 10;

// Where a step through a chunk left off, how many bytes of the line are kept, and whether the line ended.
#[derive(Clone, Copy)]
pub struct LineStep {
    pub at: usize,
    pub kept: usize,
    pub ended: bool,
}

// Takes the chunk's bytes from `at` up to and including the next byte 10, or all that are left, as more of the line of which
// the first `kept` bytes of the line buffer are kept. After a line has ended the next step starts with 0 kept.
pub fn next(chunk: &[u8], at: usize, line: &mut [u8], kept: usize) -> LineStep
    requires at_in_bounds { at ≤ length chunk.now }
    requires kept_in_bounds { kept ≤ length line.old }
    ensures value { result ≡ next_line chunk.now at line.old kept }
    ensures line_after { line.new ≡ line_after chunk.now at line.old kept }
    ensures onward { Onward chunk.now at (length line.old) result }
{
    let end = line_end(chunk, at);
    let more = keep(line, kept, &chunk[at..end]);
    if end < chunk.len() {
        return LineStep {
            at: end + 1,
            kept: more,
            ended: true,
        };
    }
    LineStep {
        at: end,
        kept: more,
        ended: false,
    }
}

// The place of the next byte 10, or the chunk's length.
pub fn line_end(chunk: &[u8], at: usize) -> usize
    requires { at ≤ length chunk.now }
    ensures value { result ≡ at + length (line_in (drop at chunk.now)) }
    ensures upper_bound { result ≤ length chunk.now }
{
    let mut i = at;
    while i < chunk.len() {
        if chunk[i] == LINE_END {
            return i;
        }
        i += 1;
    }
    i
}

// Copies `part` behind the first `kept` bytes of the line buffer, as far as there is room, and answers how many are kept.
fn keep(line: &mut [u8], kept: usize, part: &[u8]) -> usize
    requires { kept ≤ length line.old }
    ensures value { result ≡ kept + min (length part.now) (length line.old - kept) }
    ensures line_after { line.new ≡ paste line.old kept part.now (result - kept) }
{
    let n = part.len().min(line.len() - kept);
    line[kept..kept + n].copy_from_slice(&part[..n]);
    kept + n
}

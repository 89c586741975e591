// The bytes that a word spells.
ghost use Rattle.std.specs.Prelude.{◌≤◌, length};
ghost use Rattle.script_words.specs.Words.{LengthBy};

use crate::numbers;

// How many bytes the line's last word spells, behind the blank at `at`; they are put at the front of `out`, which has room
// for the most that there may be. No bytes at all is `.`.
pub fn read_bytes(line: &[u8], at: usize, out: &mut [u8]) -> Option<usize>
    requires { at ≤ length line.now }
    ensures { LengthBy (length out.old) result }
{
    let (blank, word) = line[at..].split_first()?;
    if *blank != b' ' || word.is_empty() {
        return None;
    }
    if word == b".".as_slice() {
        return Some(0);
    }
    pairs(word, out)
}

// Two hexadecimal digits for each byte.
fn pairs(word: &[u8], out: &mut [u8]) -> Option<usize>
    ensures { LengthBy (length out.old) result }
{
    let n = word.len() / 2;
    if n * 2 != word.len() || out.len() < n {
        return None;
    }
    for i in 0..n {
        out[i] = pair(word[2 * i], word[2 * i + 1])?;
    }
    Some(n)
}

fn pair(high: u8, low: u8) -> Option<u8> {
    let above = numbers::digit_of(high, 16)?;
    let rest = numbers::digit_of(low, 16)?;
    Some(above * 16 + rest)
}

// The first pass over a kernel text: whether every line is allowed, and where each of the ten names is assigned.
#![tactic(auto)]

ghost use Rattle.std.specs.Prelude.{◌≡◌, cond, ◌≤◌, ◌<◌, ltb, length};
ghost use Rattle.kernel_rules.specs.Assignments.{ends_well};
ghost use Rattle.kernel_rules.specs.Names.{names};
ghost use Rattle.kernel_find.specs.Slots.{FoundAll};

use kernel_assignments::after_line;
use kernel_lines::line_within;
use kernel_names::assigns;
use kernel_rules::Stage;

// How many names there are. A line that assigns none of them has this number.
const NAMES: usize = 10;

// Reads the lines from the place `from` on, for the clock with these digits. None where the text's form is not kept or a name is assigned twice.
// Slot k: the place of the line that assigns the name k, 0 for none. One slot more stands for all other lines, and stays 0.
pub fn find(text: &[u8], from: usize, digits: &[u8]) -> Option<[usize; NAMES + 1]>
    requires { (0 < from) × (from ≤ length text.now) }
    ensures { FoundAll text.now from digits.now result }
{
    let mut slots = [0usize; NAMES + 1];
    let mut at = from;
    let mut stage = Stage::Comment;
    while at < text.len() {
        let line = line_within(text, at);
        let k = assigns(digits, stage, &text[at..line.end]);
        if slots[k] != 0 {
            return None;
        }
        slots[k] = place_for(k, at);
        stage = after_line(stage, &text[at..line.end]);
        at = line.next;
    }
    if ends_well(stage) { Some(slots) } else { None }
}

// What slot k keeps of a line at this place.
fn place_for(k: usize, at: usize) -> usize
    ensures { result ≡ cond (ltb k names) at 0 }
{
    if k < NAMES { at } else { 0 }
}

#[tactic(auto, unfolding(kernel_rules::specs::Assignments::ends_well))]
fn ends_well(p: Stage) -> bool
    ensures { result ≡ ends_well p }
{
    matches!(p, Stage::Comment | Stage::Data)
}

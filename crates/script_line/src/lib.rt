// What one line of a script does: it changes the tables, the raw counter or the tail buffer, or it is a question and has an answer, or both.
#![tactic(auto)]

ghost use Rattle.put.specs.Places.{Put};

use raw_rules::RawCounter;
use script_names::Line;
use script_tables::{Tables, Taken};
use walk_question::TailBuffer;

pub const LONGEST_LINE: usize = 140_000;

// Changes what the script keeps as the line says, puts its answer into the output, and answers the place after it.
pub fn answer_line(
    line: &[u8],
    tables: &mut Tables,
    counter: &mut RawCounter,
    tail: &mut TailBuffer,
    out: &mut [u8],
    place: usize,
) -> usize
    ensures { Put place out.old result }
{
    if LONGEST_LINE < line.len() {
        return answers::put_bad(out, place);
    }
    let mut numbers = [0u64; script_names::MOST_NUMBERS];
    let Some(read) = script_names::read(line, &mut numbers) else {
        return answers::put_bad(out, place);
    };
    let rest = read.rest;
    let table = &tables.table;
    let (starts, ends) = (table.starts.all(), table.ends.all());
    match read.line {
        Line::Table(change) => match tables.take_line(change, &numbers) {
            Taken::Changed => place,
            Taken::NoRoom => answers::put_bad(out, place),
        },
        Line::Ask(question) => questions::answer(
            question,
            &numbers,
            line,
            rest,
            table.layout,
            starts,
            ends,
            table.counts.all(),
            table.times.all(),
            table.rates.all(),
            out,
            place,
        ),
        Line::Kernel => kernel_question::read_kernel(&numbers, line, rest, out, place),
        Line::Raw(raw) => raw_question::answer(
            raw,
            &numbers,
            table.layout,
            starts,
            ends,
            counter,
            out,
            place,
        ),
        Line::Packet(question) => packet_question::answer(
            question,
            &numbers,
            line,
            rest,
            table.layout,
            starts,
            ends,
            out,
            place,
        ),
        Line::Walk => walk_question::walk(&numbers, line, rest, tail, out, place),
        Line::Tables(question) => tables_question::answer(question, tables, out, place),
        Line::PassedOver => place,
    }
}

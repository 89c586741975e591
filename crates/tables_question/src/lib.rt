// The questions of a script about two tables, the older and the script's own. Each function puts its answer at `place`, and answers the place after it.
#![tactic(auto)]

ghost use Rattle.std.specs.Prelude.{◌≡◌};
ghost use Rattle.put.specs.Places.{Put};
ghost use Rattle.succession_rules.specs.OfTwo.{answered_as, answered_of};
ghost use Rattle.succession_rules.specs.Succession.{succession, verdict_of};
ghost use Rattle.succession_rules.specs.Horizon.{horizon_of};
ghost use Rattle.tables_question.specs.Kept.{kept};

use rules::Refusal;
use script_names::TablesQuestion;
use script_tables::{Table, Tables};
use succession_rules::{Condition, Failure, Succession, TableRefusal};

pub fn answer(question: TablesQuestion, tables: &Tables, out: &mut [u8], place: usize) -> usize
    ensures { Put place out.old result }
{
    match question {
        TablesQuestion::Succeeds => {
            let answer = succeeds(&tables.older, &tables.table);
            put_succession(out, place, answer)
        }
        TablesQuestion::Horizon => {
            let answer = horizon(&tables.older, &tables.table);
            put_horizon(out, place, answer)
        }
    }
}

fn succeeds(older: &Table, newer: &Table) -> Result<Succession, TableRefusal>
    ensures { answered_as verdict_of result ≡ succession (kept older.now) (kept newer.now) }
{
    succession::succeeds(
        older.layout,
        older.starts.all(),
        older.ends.all(),
        older.counts.all(),
        older.times.all(),
        older.rates.all(),
        newer.layout,
        newer.starts.all(),
        newer.ends.all(),
        newer.counts.all(),
        newer.times.all(),
        newer.rates.all(),
    )
}

fn horizon(older: &Table, newer: &Table) -> Result<u64, TableRefusal>
    ensures { answered_of result ≡ horizon_of (kept older.now) (kept newer.now) }
{
    succession::horizon(
        older.layout,
        older.starts.all(),
        older.ends.all(),
        older.counts.all(),
        older.times.all(),
        older.rates.all(),
        newer.layout,
        newer.starts.all(),
        newer.ends.all(),
        newer.counts.all(),
        newer.times.all(),
        newer.rates.all(),
    )
}

fn put_succession(out: &mut [u8], at: usize, answer: Result<Succession, TableRefusal>) -> usize
    ensures { Put at out.old result }
{
    match answer {
        Ok(Ok(())) => put::text(out, at, b"ok yes\n"),
        Ok(Err(failure)) => put_failure(out, at, failure),
        Err(refused) => put_refused(out, at, refused),
    }
}

fn put_horizon(out: &mut [u8], at: usize, answer: Result<u64, TableRefusal>) -> usize
    ensures { Put at out.old result }
{
    match answer {
        Ok(below) => put_last(out, at, b"ok ", below),
        Err(refused) => put_refused(out, at, refused),
    }
}

// The condition that fails, and its row.
fn put_failure(out: &mut [u8], at: usize, failure: Failure) -> usize
    ensures { Put at out.old result }
{
    let row = failure.row as u64;
    match failure.condition {
        Condition::Layout => put_last(out, at, b"ok no layout ", row),
        Condition::Partition => put_last(out, at, b"ok no partition ", row),
        Condition::Segment => put_last(out, at, b"ok no segment ", row),
        Condition::Further => put_last(out, at, b"ok no further ", row),
        Condition::Seam => put_last(out, at, b"ok no seam ", row),
    }
}

// Which table is refused, and why.
fn put_refused(out: &mut [u8], at: usize, refused: TableRefusal) -> usize
    ensures { Put at out.old result }
{
    match refused {
        TableRefusal::Older(refusal) => put_refusal(out, at, b"refused older ", refusal),
        TableRefusal::Newer(refusal) => put_refusal(out, at, b"refused newer ", refusal),
    }
}

fn put_refusal(out: &mut [u8], at: usize, head: &[u8], refusal: Refusal) -> usize
    ensures { Put at out.old result }
{
    let place = put::text(out, at, head);
    let place = put::refused_number(out, place, refusal);
    put::byte(out, place, b'\n')
}

// The last word of a line.
fn put_last(out: &mut [u8], at: usize, head: &[u8], number: u64) -> usize
    ensures { Put at out.old result }
{
    let place = put::text(out, at, head);
    let place = put::number(out, place, number);
    put::byte(out, place, b'\n')
}

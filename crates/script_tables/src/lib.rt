// The tables of a script: its own, and behind it an older one. Lines of the script change them.
#![tactic(auto)]

ghost use Rattle.std.specs.Prelude.{◌≡◌, [], length, get_or, replicate};
ghost use Rattle.script_tables.specs.declared.Taken.TheVariants.{Changed, NoRoom};
ghost use Rattle.script_names.specs.declared.TableLine.TheVariants as Lines;

use rules::Layout;
use script_names::{Numbers, TableLine};
use script_words::numbers::byte_of;

mod entries;

pub use entries::{Entries, MOST_ENTRIES};

#[derive(Clone, Copy)]
pub enum Taken {
    Changed,
    NoRoom,
}

// A layout and five lists.
#[derive(Drop)]
pub struct Table {
    pub layout: Layout,
    pub starts: Entries<u64>,
    pub ends: Entries<u64>,
    pub counts: Entries<u64>,
    pub times: Entries<i64>,
    pub rates: Entries<u64>,
}

// The script's table and the older one.
#[derive(Drop)]
pub struct Tables {
    pub table: Table,
    pub older: Table,
}

impl Table {
    // The table of a script that has said nothing.
    pub fn new() -> Table
        ensures layout { (result.layout.n ≡ 0) × (result.layout.delimiter ≡ 0) }
        ensures moduli { result.layout.moduli ≡ replicate 10 0 }
        ensures offsets { result.layout.offsets ≡ replicate 10 0 }
        ensures partitions { (result.starts ≡ []) × (result.ends ≡ []) }
        ensures segments { (result.counts ≡ []) × (result.times ≡ []) × (result.rates ≡ []) }
    {
        Table {
            layout: Layout {
                n: 0,
                moduli: [0; Layout::MOST_FIELDS],
                offsets: [0; Layout::MOST_FIELDS],
                delimiter: 0,
            },
            starts: Entries::new(0),
            ends: Entries::new(0),
            counts: Entries::new(0),
            times: Entries::new(0),
            rates: Entries::new(0),
        }
    }

    // Becomes a copy of another table.
    fn copy(&mut self, other: &Table)
        ensures { self.new ≡ other.now }
    {
        self.layout = other.layout;
        self.starts.copy(&other.starts);
        self.ends.copy(&other.ends);
        self.counts.copy(&other.counts);
        self.times.copy(&other.times);
        self.rates.copy(&other.rates);
    }
}

impl Tables {
    // Both as a script's table is before it has said anything.
    pub fn new() -> Tables
        ensures { (result.table.layout.n ≡ 0) × (result.older ≡ result.table) }
    {
        Tables {
            table: Table::new(),
            older: Table::new(),
        }
    }

    // Changes the tables as a line of theirs says.
    pub fn take_line(&mut self, line: TableLine, numbers: &Numbers) -> Taken
        ensures keeps { result ≡ NoRoom → self.new ≡ self.old }
        ensures older { line ≡ Lines.Older → (self.new.older ≡ self.old.table) × (self.new.table ≡ self.old.table) }
        ensures changed { line ≡ Lines.Older → result ≡ Changed }
        ensures fields { line ≡ Lines.Layout → self.new.table.layout.n ≡ get_or numbers.now 0 0 }
    {
        let table = &mut self.table;
        match line {
            TableLine::Layout => table.layout = layout_of(numbers),
            TableLine::Partitions => {
                table.starts.clear();
                table.ends.clear();
            }
            TableLine::Segments => {
                table.counts.clear();
                table.times.clear();
                table.rates.clear();
            }
            TableLine::Older => self.older.copy(&self.table),
            TableLine::Start => return table.starts.add(numbers[0]),
            TableLine::End => return table.ends.add(numbers[0]),
            TableLine::Count => return table.counts.add(numbers[0]),
            TableLine::Time => return table.times.add(signed::from_ordinal(numbers[0])),
            TableLine::Rate => return table.rates.add(numbers[0]),
        }
        Taken::Changed
    }
}

// The layout that its line's numbers give.
fn layout_of(numbers: &Numbers) -> Layout
    ensures { result.n ≡ get_or numbers.now 0 0 }
{
    let (moduli, offsets) = numbers[2..].split_at(Layout::MOST_FIELDS);
    Layout {
        n: numbers[0] as usize,
        moduli: slots(moduli),
        offsets: slots(offsets),
        delimiter: byte_of(numbers[1]),
    }
}

fn slots(numbers: &[u64]) -> [u64; Layout::MOST_FIELDS]
    requires { length numbers.now ≡ 10 }
{
    let mut held = [0u64; Layout::MOST_FIELDS];
    held.copy_from_slice(numbers);
    held
}

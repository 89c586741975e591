// A list of a table.
ghost use Rattle.std.specs.Prelude.{◌≡◌, ◌≤◌, List, [], ◌∷◌, ◌++◌, take, length};
ghost use Rattle.script_tables.specs.declared.Taken.TheVariants.{Changed, NoRoom};
ghost use Rattle.script_tables.specs.Sizes.{most_entries};

use crate::Taken;
use std::marker::Model;

// The most entries of a list.
pub const MOST_ENTRIES: usize = 10_001;

// Entries in the order in which they were added.
#[derive(Drop)]
pub struct Entries<T> {
    held: [T; MOST_ENTRIES],
    size: usize,
}

impl<T> Model for Entries<T> {
    ghost Value = { List T };

    ghost view = { λ e. take e.size e.held };

    ghost invariant = { λ e. e.size ≤ most_entries };
}

impl<T: Copy> Entries<T> {
    // No entries yet.
    pub fn new(filler: T) -> Entries<T>
        ensures { result ≡ [] }
    {
        Entries {
            held: [filler; MOST_ENTRIES],
            size: 0,
        }
    }

    pub fn all(&self) -> &[T]
        ensures { result.now ≡ self.now }
    {
        &self.held[..self.size]
    }

    pub fn clear(&mut self)
        ensures { self.new ≡ [] }
    {
        self.size = 0;
    }

    pub fn add(&mut self, entry: T) -> Taken
        ensures added { result ≡ Changed → self.new ≡ self.old ++ entry ∷ [] }
        ensures kept { result ≡ NoRoom → self.new ≡ self.old }
        ensures full { result ≡ NoRoom → length self.old ≡ most_entries }
    {
        if MOST_ENTRIES <= self.size {
            return Taken::NoRoom;
        }
        self.held[self.size] = entry;
        self.size += 1;
        Taken::Changed
    }

    // Becomes a copy of another list.
    pub fn copy(&mut self, other: &Entries<T>)
        ensures { self.new ≡ other.now }
    {
        self.held[..other.size].copy_from_slice(&other.held[..other.size]);
        self.size = other.size;
    }
}

ghost use Rattle.std.specs.Prelude.{◌≡◌, ◌≤◌, ◌==◌, false, [], length, position};
ghost use Rattle.store.specs.Changes.{newest_number};
ghost use Rattle.write_back.specs.Holding.{evicted, full, held_in, holding, remaining};

use super::Held;
use arrayvec::ArrayVec;
use store::change::{Change, is_changed, newest_number};

impl Held {
    // Nothing is held.
    pub(crate) fn new() -> Held
        ensures { held_in result ≡ [] }
    {
        Held {
            changes: ArrayVec::new(),
        }
    }

    // What is held, the change held longest first.
    pub(crate) fn changes(&self) -> &[Change]
        ensures { result.now ≡ held_in self.now }
    {
        self.changes.as_slice()
    }

    // The held number of a cell.
    pub(crate) fn number_of(&self, cell: u32) -> Option<u32>
        ensures { result ≡ newest_number (held_in self.now) cell }
    {
        newest_number(self.changes(), cell)
    }

    // Lets go of the change held longest, if the cell finds no room.
    pub(crate) fn make_room(&mut self, cell: u32) -> Option<Change>
        ensures value { result ≡ evicted (held_in self.old) cell }
        ensures after { held_in self.new ≡ remaining (held_in self.old) cell }
        ensures room { full (held_in self.new) cell ≡ false }
    {
        // An `if` and no `then`: tried, and the proof did not close.
        if self.is_full(cell) {
            Some(self.changes.remove(0))
        } else {
            None
        }
    }

    // Holds the number for the cell, for which there has to be room.
    pub(crate) fn put(&mut self, cell: u32, number: u32)
        requires { full (held_in self.old) cell ≡ false }
        ensures { held_in self.new ≡ holding (held_in self.old) cell number }
    {
        let change = Change { cell, number };
        match self.place_of(cell) {
            Some(i) => self.changes[i] = change,
            None => self.changes.push(change),
        }
    }

    // Whether the cell finds no room.
    fn is_full(&self, cell: u32) -> bool
        ensures value { result ≡ full (held_in self.now) cell }
        ensures few { length (held_in self.now) ≤ 32 }
    {
        self.changes.is_full() && !is_changed(self.changes(), cell)
    }

    // Where the change to the cell stands, if the cell is held.
    fn place_of(&self, cell: u32) -> Option<usize>
        ensures { result ≡ position (λ change. change.cell == cell) (held_in self.now) }
    {
        self.changes().iter().position(|change| change.cell == cell)
    }
}

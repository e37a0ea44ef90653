ghost use Rattle.std.specs.Prelude.{◌≡◌, ℕ, ◌≤◌, true, List, length};
ghost use Rattle.model.specs.Logs.{find, lowest, any, current, changed, set_all};
ghost use Rattle.model.specs.declared.Entry.{Entry as Logged};
ghost use Rattle.cell_log.specs.Changes.{as_changes};
ghost use Rattle.cell_log.specs.Lowest.{NoneBelow};
ghost use Rattle.cell_log.specs.Places.{Placed};
ghost use Rattle.cell_log.specs.Rows.{entries_of, ascends};
ghost use Rattle.store.specs.Changes.{distinct};
ghost use Rattle.store.specs.Sets.{SetsEach};

use crate::log::Log;
use crate::scans::{is_current, place_of};
use crate::view::LogIn;
use model::Entry;
use store::Store;

// What is looked up in a log, and in a log where it lies in a row: ascending, each cell once, at most 24.
pub trait Lookups {
    // The entries, from the lowest cell on.
    ghost list: { Self → List Logged };

    // How many there are.
    ghost count: { Self → ℕ };

    fn entries(&self) -> &[Entry]
        ensures value { result.now ≡ list self.now }
        ensures len { length result.now ≡ count self.now }
        ensures few { length result.now ≤ 24 }
        ensures ordered { ascends result.now ≡ true };

    // Where the entry of a cell stands, or where it would go.
    final fn place(&self, cell: u32) -> Result<usize, usize>
        ensures { Placed (list self.now) cell result }
    {
        place_of(self.entries(), cell)
    }

    // The number for a cell.
    final fn number(&self, cell: u32) -> Option<u32>
        ensures { result ≡ find (list self.now) cell }
    {
        let i = self.place(cell).ok()?;
        Some(self.entries()[i].number)
    }

    final fn len(&self) -> usize
        ensures value { result ≡ length (list self.now) }
        ensures stored { result ≡ count self.now }
        ensures few { result ≤ 24 }
    {
        self.entries().len()
    }

    // The lowest cell.
    final fn lowest(&self) -> Option<u32>
        ensures first { result ≡ lowest any (list self.now) }
        ensures least { NoneBelow any (list self.now) result }
    {
        self.entries().first().map(|e| e.cell)
    }

    // The lowest cell whose number here still is its number in the store. Two lookups, this and the next: each promises the
    // definition of its own rule, and one for both would promise the two of them by a flag.
    final fn lowest_current<S: Store>(&self, store: &S) -> Option<u32>
        ensures first { result ≡ lowest (current (S.Store.cells store.now)) (list self.now) }
        ensures least { NoneBelow (current (S.Store.cells store.now)) (list self.now) result }
    {
        let first = self.entries().iter().find(|e| is_current(store, e));
        first.map(|e| e.cell)
    }

    // The lowest cell whose number here differs from its number in the store.
    final fn lowest_changed<S: Store>(&self, store: &S) -> Option<u32>
        ensures first { result ≡ lowest (changed (S.Store.cells store.now)) (list self.now) }
        ensures least { NoneBelow (changed (S.Store.cells store.now)) (list self.now) result }
    {
        let first = self.entries().iter().find(|e| !is_current(store, e));
        first.map(|e| e.cell)
    }

    // Sets every entry's cell to its number, once each, the lowest first.
    final fn set_all<S: Store>(&self, store: &mut S)
        ensures after { S.Store.cells store.new ≡ set_all (list self.now) (S.Store.cells store.old) }
        ensures same { S.Store.loan store.new ≡ S.Store.loan store.old }
        ensures each { SetsEach S.Store.sets store.old (as_changes (list self.now)) store.new }
        ensures once { distinct (as_changes (list self.now)) ≡ true }
    {
        for logged in self.entries() {
            let _ = store.set(logged.cell, logged.number);
        }
    }
}

impl Lookups for Log {
    ghost list = { λ log. entries_of log.row };

    ghost count = { λ log. log.row.len };

    fn entries(&self) -> &[Entry] {
        self.row.filled()
    }
}

impl<'a> Lookups for LogIn<'a> {
    ghost list = { λ log. entries_of log.row.now };

    ghost count = { λ log. log.row.now.len };

    fn entries(&self) -> &[Entry] {
        self.row.filled()
    }
}

ghost use Rattle.std.specs.Prelude.{◌≡◌, ◌+◌, ◌<◌, false, not, [], ◌∷◌, length, get_or, drop, nat_lt, slice_set};
ghost use Rattle.store.specs.Changes.{touches};
ghost use Rattle.change_list.specs.Lists.{cells_of, in_force, records_of, Adds};
ghost use Rattle.change_list.specs.Records.{cell_count, with_room};

use crate::ChangeList;
use store::change::{Change, is_changed, newest_number};
use store::{MOST_CELLS, Store};

impl<'a> Store for ChangeList<'a> {
    ghost cells = { λ s. cells_of s };

    ghost loan = { λ s. s.records.ghost_name ∷ [] };

    ghost sets = { Adds };

    fn count(&self) -> usize {
        // One cell fewer than there are records, so that the newest records of all cells leave one record free.
        self.records.len().saturating_sub(1).min(MOST_CELLS)
    }

    fn get(&self, cell: u32) -> Option<u32> {
        if cell as usize >= self.count() {
            return None;
        }
        let number = newest_number(self.in_force(), cell);
        Some(number.unwrap_or(0))
    }

    // Adds a record. Where none is free, only the newest record of each cell is kept first. No other record changes.
    fn set(&mut self, cell: u32, number: u32) -> bool
        ensures answer { result ≡ nat_lt cell (length (cells_of self.old)) }
        ensures after { cells_of self.new ≡ slice_set (cells_of self.old) cell number }
        ensures same { self.new.records.ghost_name ∷ [] ≡ self.old.records.ghost_name ∷ [] }
        ensures done { Adds self.old cell number self.new }
        ensures refused { result ≡ false → self.new ≡ self.old }
    {
        if cell as usize >= self.count() {
            return false;
        }
        self.make_room();
        self.records[self.used] = Change { cell, number };
        self.used += 1;
        true
    }
}

impl ChangeList<'_> {
    // The records in force.
    fn in_force(&self) -> &[Change]
        ensures { result.now ≡ in_force self.now }
    {
        &self.records[..self.used]
    }

    // Whether no later record in force is of the same cell.
    fn is_newest(&self, i: usize) -> bool
        requires { i < self.now.used }
        ensures { result ≡ not (touches (drop (i + 1) (in_force self.now)) (get_or self.now.records.now i (record { cell = 0; number = 0 })).cell) }
    {
        !is_changed(&self.in_force()[i + 1..], self.records[i].cell)
    }

    // Where no record is free, keeps only the newest record of each cell, which frees one.
    fn make_room(&mut self)
        requires { 0 < cell_count (records_of self.old) }
        ensures kept { in_force self.new ≡ with_room (records_of self.old) (in_force self.old) }
        ensures room { self.new.used < records_of self.new }
        ensures length { records_of self.new ≡ records_of self.old }
        ensures others { drop self.new.used self.new.records.now ≡ drop self.new.used self.old.records.now }
        ensures loan { self.new.records.ghost_name ≡ self.old.records.ghost_name }
    {
        if self.used < self.records.len() {
            return;
        }
        // By index: the lent records are fixed memory, and no slice has a method that moves kept items to its front.
        let mut len = 0;
        for i in 0..self.used {
            if self.is_newest(i) {
                self.records[len] = self.records[i];
                len += 1;
            }
        }
        self.used = len;
    }
}

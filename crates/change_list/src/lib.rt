#![tactic(auto)]

ghost use Rattle.std.specs.Prelude.{◌≡◌, ◌≤◌, true, length, take};
ghost use Rattle.store.specs.Changes.{sound};
ghost use Rattle.change_list.specs.Records.{cell_count};

mod cells;
mod lending;

use store::change::Change;

// A store over lent records, one cell fewer than there are records. All cells hold 0 at first; each set adds a record,
// and once no record is free, only the newest record of each cell is kept.
#[derive(Drop)]
pub struct ChangeList<'a> {
    // The first `used` are in force, the newest last. The records are lent, so their count stands beside them.
    records: &'a mut [Change],
    used: usize,
    // The records in force are among those lent, and each is of a cell below the count.
    ghost within: { used ≤ length records.now },
    ghost sound: { sound (cell_count (length records.now)) (take used records.now) ≡ true },
}

ghost use Rattle.std.specs.Prelude.{◌≡◌, ◌≤◌, length};
ghost use Rattle.change_list.specs.Lists.{cells_of, records_of};
ghost use Rattle.change_list.specs.Records.{cell_count, zeros};

use crate::ChangeList;
use store::change::Change;

impl<'a> ChangeList<'a> {
    // A list over these records, none of which is in force yet, whatever they hold.
    pub fn new(records: &'a mut [Change]) -> ChangeList<'a>
        ensures cells { cells_of result ≡ zeros (cell_count (length records.old)) }
        ensures records { result.records.now ≡ records.old }
        ensures loan { result.records.ghost_name ≡ records.entry.ghost_name }
        ensures none { result.used ≡ 0 }
    {
        ChangeList { records, used: 0 }
    }

    // How many records are in force. These, made over zeros one after another, give the cells.
    pub fn used(&self) -> usize
        ensures value { result ≡ self.now.used }
        ensures within { result ≤ records_of self.now }
    {
        self.used
    }

    // Gives the records back as they stand, those in force first.
    pub fn into_records(self) -> &'a mut [Change]
        ensures records { result.now ≡ self.entry.records.now }
        ensures loan { result.ghost_name ≡ self.entry.records.ghost_name }
    {
        self.records
    }
}

ghost use Rattle.std.specs.Prelude.{◌≡◌, ◌||◌, length, is_some, IfSome, nat_lt};
ghost use Rattle.model.specs.Logs.{find, put, remove};
ghost use Rattle.cell_log.specs.Rows.{entries_of};

use crate::log::Log;
use crate::lookups::Lookups;
use crate::row::ROOM;
use model::Entry;

impl Log {
    // The log with that number for that cell, in place of an older one; `None` where it would be the 25th entry.
    pub fn put(self, cell: u32, number: u32) -> Option<Log>
        ensures answer { is_some result ≡ (nat_lt (length (entries_of self.row)) 24 || is_some (find (entries_of self.row) cell)) }
        ensures value { IfSome result (λ l. entries_of l.row ≡ put (entries_of self.row) cell number) }
    {
        let entry = Entry { cell, number };
        match self.place(cell) {
            Ok(i) => Some(Log {
                row: self.row.replace(i, entry),
            }),
            Err(i) if self.len() < ROOM => Some(Log {
                row: self.row.insert(i, entry),
            }),
            Err(_) => None,
        }
    }

    // The log without its entry for that cell.
    pub fn remove(self, cell: u32) -> Log
        ensures { entries_of result.row ≡ remove (entries_of self.row) cell }
    {
        let Ok(i) = self.place(cell) else {
            return self;
        };
        Log {
            row: self.row.delete(i),
        }
    }
}

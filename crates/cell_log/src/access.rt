ghost use Rattle.std.specs.Prelude.{◌≡◌, ◌<◌, ◌||◌, true, [], length, is_ok, is_some, nat_lt, IsOk, IfOk, IfErr, OnOk};
ghost use Rattle.model.specs.Logs.{find, put, remove};
ghost use Rattle.cell_log.specs.Both.{FoundIn, FullFor};
ghost use Rattle.cell_log.specs.Rows.{entries_of, sound};

use crate::both::{Found, Logs, Reading};
use crate::log::Log;
use crate::lookups::Lookups;
use crate::row::LogRow;
use crate::scans::number_at;
use crate::view::LogIn;
use model::Refusal;
use store::Store;

// The log in a row, to be changed. The rows of `Logs` always pass the check.
fn log_of(row: LogRow) -> Log
    requires { sound row ≡ true }
    ensures { result.row ≡ row }
{
    Log::try_from(row).unwrap()
}

impl Logs {
    // The read log, to be looked up. The row always passes the check.
    pub fn reads(&self) -> LogIn<'_>
        ensures { result.row.now ≡ self.now.reads }
    {
        LogIn::try_from(&self.reads).unwrap()
    }

    // The write log, likewise.
    pub fn writes(&self) -> LogIn<'_>
        ensures { result.row.now ≡ self.now.writes }
    {
        LogIn::try_from(&self.writes).unwrap()
    }

    pub fn empty() -> Logs
        ensures reads { entries_of result.reads ≡ [] }
        ensures writes { entries_of result.writes ≡ [] }
    {
        Logs {
            reads: LogRow::empty(),
            writes: LogRow::empty(),
        }
    }

    // Reads a cell: what was written first, then what was read before, and else the store, which is logged.
    pub fn read<S: Store>(&mut self, store: &S, cell: u32) -> Result<Reading, Refusal>
        ensures ok { IfOk result (λ r. FoundIn (S.Store.cells store.now) cell self.old self.new r.number r.found) }
        ensures err { IfErr result (λ e. (e ≡ Refusal.LogFull) × FullFor cell self.old × (self.new ≡ self.old)) }
        ensures room { length (entries_of self.old.reads) < 24 → IsOk result }
    {
        if let Some(number) = self.writes().number(cell) {
            let found = Found::InWrites;
            return Ok(Reading { number, found });
        }
        if let Some(number) = self.reads().number(cell) {
            let found = Found::InReads;
            return Ok(Reading { number, found });
        }
        let number = number_at(store, cell);
        // No `ok_or` here and in `write`: it would copy the log once more.
        let Some(reads) = log_of(self.reads).put(cell, number) else {
            return Err(Refusal::LogFull);
        };
        self.reads = LogRow::from(reads);
        let found = Found::InStore;
        Ok(Reading { number, found })
    }

    // Writes a number for a cell, in place of an older one.
    pub fn write(&mut self, cell: u32, number: u32) -> Result<(), Refusal>
        ensures answer { is_ok result ≡ (nat_lt (length (entries_of self.old.writes)) 24 || is_some (find (entries_of self.old.writes) cell)) }
        ensures ok { OnOk result ((entries_of self.new.writes ≡ put (entries_of self.old.writes) cell number) × (self.new.reads ≡ self.old.reads)) }
        ensures err { IfErr result (λ e. (e ≡ Refusal.LogFull) × (self.new ≡ self.old)) }
    {
        let Some(writes) = log_of(self.writes).put(cell, number) else {
            return Err(Refusal::LogFull);
        };
        self.writes = LogRow::from(writes);
        Ok(())
    }

    // Takes the entry of a cell out of the read log.
    pub fn forget_read(&mut self, cell: u32)
        ensures reads { entries_of self.new.reads ≡ remove (entries_of self.old.reads) cell }
        ensures writes { self.new.writes ≡ self.old.writes }
    {
        self.reads = LogRow::from(log_of(self.reads).remove(cell));
    }

    // Takes the entry of a cell out of the write log.
    pub fn forget_write(&mut self, cell: u32)
        ensures writes { entries_of self.new.writes ≡ remove (entries_of self.old.writes) cell }
        ensures reads { self.new.reads ≡ self.old.reads }
    {
        self.writes = LogRow::from(log_of(self.writes).remove(cell));
    }
}

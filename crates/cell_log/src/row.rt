ghost use Rattle.std.specs.Prelude.{◌≡◌, suc, ◌<◌, ◌≤◌, true, [], length, slice_set};
ghost use Rattle.std.specs.List.{insert, remove};
ghost use Rattle.cell_log.specs.Rows.{entries_of, sound};

use crate::scans::is_ascending;
use model::Entry;

// How many entries a log has room for: a job has at most 24 steps, and a step logs one cell at most.
pub const ROOM: usize = 24;

// A log as it lies in a job or a correction. Nothing is promised of it: who makes a `Log` or a `LogIn` of it looks.
// Array and length side by side and no `ArrayVec`, since a row is plain: it is copied with what it lies in, its fields are
// public, and any length may stand in it until then.
#[derive(Clone, Copy)]
pub struct LogRow {
    pub entries: [Entry; ROOM],
    pub len: usize,
}

impl LogRow {
    // Whether the row holds a log: no more entries than it has room for, ascending by cell, each cell once.
    pub(crate) fn is_sound(&self) -> bool
        ensures { result ≡ sound self.now }
    {
        self.len <= ROOM && is_ascending(self.filled())
    }

    // The entries of a row that has room for as many as it says.
    pub(crate) fn filled(&self) -> &[Entry]
        requires { self.now.len ≤ 24 }
        ensures value { result.now ≡ entries_of self.now }
        ensures len { length result.now ≡ self.now.len }
    {
        &self.entries[0..self.len]
    }

    pub fn empty() -> LogRow
        ensures value { entries_of result ≡ [] }
        ensures ordered { sound result ≡ true }
    {
        LogRow {
            entries: [Entry { cell: 0, number: 0 }; ROOM],
            len: 0,
        }
    }

    // With another entry at that place.
    pub(crate) fn replace(self, i: usize, entry: Entry) -> LogRow
        requires { (i < self.len) × (self.len ≤ 24) }
        ensures len { result.len ≡ self.len }
        ensures value { entries_of result ≡ slice_set (entries_of self) i entry }
    {
        let mut entries = self.entries;
        entries[i] = entry;
        LogRow {
            entries,
            len: self.len,
        }
    }

    // With one entry more, at that place.
    pub(crate) fn insert(self, i: usize, entry: Entry) -> LogRow
        requires { (i ≤ self.len) × (self.len < 24) }
        ensures len { result.len ≡ suc self.len }
        ensures value { entries_of result ≡ insert (entries_of self) i entry }
    {
        let n = self.len;
        let mut entries = self.entries;
        entries.copy_within(i..n, i + 1);
        entries[i] = entry;
        LogRow {
            entries,
            len: n + 1,
        }
    }

    // Without the entry at that place.
    pub(crate) fn delete(self, i: usize) -> LogRow
        requires { (i < self.len) × (self.len ≤ 24) }
        ensures len { result.len < self.len }
        ensures value { entries_of result ≡ remove (entries_of self) i }
    {
        let n = self.len;
        let mut entries = self.entries;
        entries.copy_within(i + 1..n, i);
        LogRow {
            entries,
            len: n - 1,
        }
    }
}

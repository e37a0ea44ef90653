ghost use Rattle.std.specs.Prelude.{◌≡◌, ℕ, ◌<◌, true, false, List, [], length, IfErr, OnOk};
ghost use Rattle.cell_log.specs.Changes.{as_changes};
ghost use Rattle.model.specs.Calls.{correction};
ghost use Rattle.model.specs.Logs.{set_all};
ghost use Rattle.store.specs.Sets.{SetsEach};
ghost use Rattle.correction.specs.Corrections.{correction_of};
ghost use Rattle.correction.specs.Calls.{Comes, reading, writing, withdrawing, Checked, Barred};

use crate::correction::Correction;
use cell_log::{Logs, Lookups};
use model::Refusal;
use store::Store;

impl Correction {
    // An open correction that has read and written nothing.
    pub fn new() -> Correction
        ensures { correction_of result ≡ correction true [] [] }
    {
        Correction::default()
    }

    // Refuses a closed correction.
    fn check_open(&self) -> Result<(), Refusal>
        ensures ok { OnOk result ((correction_of self.now).is_open ≡ true) }
        ensures err { IfErr result (λ e. ((correction_of self.now).is_open ≡ false) × (e ≡ Refusal.NotOpen)) }
    {
        if self.is_open {
            Ok(())
        } else {
            Err(Refusal::NotOpen)
        }
    }

    // Refuses a closed correction every cell, and an open one what is no cell of the store.
    fn check_access<S: Store>(&self, store: &S, cell: u32) -> Result<(), Refusal>
        ensures ok { OnOk result (((correction_of self.now).is_open ≡ true) × (cell < length (S.Store.cells store.now))) }
        ensures err { IfErr result (Barred (S.Store.cells store.now) (correction_of self.now) cell) }
    {
        self.check_open()?;
        if (cell as usize) < store.count() {
            Ok(())
        } else {
            Err(Refusal::NoSuchCell)
        }
    }

    // Reads a cell as r1 to r3 do, in the correction's own logs.
    pub fn read<S: Store>(&mut self, store: &S, cell: u32) -> Result<u32, Refusal>
        ensures { Comes (reading cell) (S.Store.cells store.now) (correction_of self.old) (correction_of self.new) result }
    {
        self.check_access(store, cell)?;
        let reading = self.logs.read(store, cell)?;
        Ok(reading.number)
    }

    // Writes a number for a cell as w1 and w2 do.
    pub fn write<S: Store>(&mut self, store: &S, cell: u32, number: u32) -> Result<(), Refusal>
        ensures { Comes (writing cell number) (S.Store.cells store.now) (correction_of self.old) (correction_of self.new) result }
    {
        self.check_access(store, cell)?;
        self.logs.write(cell, number)
    }

    // Whether it may be filed: it is open, the commit right is free, and every number that it read still is its cell's.
    pub fn check<S: Store>(&self, store: &S, right: Option<u32>) -> Result<(), Refusal>
        ensures { Checked (S.Store.cells store.now) right (correction_of self.now) result }
    {
        self.check_open()?;
        if right.is_some() {
            return Err(Refusal::RightHeld);
        }
        match self.logs.reads().lowest_changed(store) {
            Some(cell) => Err(Refusal::Changed { cell }),
            None => Ok(()),
        }
    }

    // Sets every written cell once and closes the correction, whose logs stay. Answers how many cells it wrote.
    pub fn commit<S: Store>(&mut self, store: &mut S) -> u32
        ensures count { result ≡ length (correction_of self.old).writes }
        ensures closed { correction_of self.new ≡ correction false (correction_of self.old).reads (correction_of self.old).writes }
        ensures after { S.Store.cells store.new ≡ set_all (correction_of self.old).writes (S.Store.cells store.old) }
        ensures same { S.Store.loan store.new ≡ S.Store.loan store.old }
        ensures each { SetsEach S.Store.sets store.old (as_changes (correction_of self.old).writes) store.new }
    {
        let writes = self.logs.writes();
        writes.set_all(store);
        let count = writes.len() as u32;
        self.is_open = false; // The logs stay.
        count
    }

    // Closes it, if it is open.
    pub fn withdraw(&mut self) -> Result<(), Refusal>
        ensures { (C : List ℕ) → Comes withdrawing C (correction_of self.old) (correction_of self.new) result }
    {
        self.check_open()?;
        self.is_open = false;
        Ok(())
    }
}

// An open correction that has read and written nothing.
impl Default for Correction {
    ghost is_default = { λ c. correction_of c ≡ correction true [] [] };

    fn default() -> Correction {
        Correction {
            is_open: true,
            logs: Logs::empty(),
        }
    }
}

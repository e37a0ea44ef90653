ghost use Rattle.std.specs.Prelude.{◌≡◌, ℕ, List, map, OnErr};
ghost use Rattle.job.specs.Jobs.{job_of};
ghost use Rattle.correction.specs.Calls.{reading, writing, withdrawing};
ghost use Rattle.model.specs.Calls.{open_correction, file_by, held};
ghost use Rattle.model.specs.Rules.{unmark};
ghost use Rattle.table.specs.Corrections.{Finds, Corrects};
ghost use Rattle.table.specs.Slips.{numbers, numbered};
ghost use Rattle.table.specs.Settings.{Through};
ghost use Rattle.table.specs.States.{state_of};

use crate::slip::SlipNumbers;
use crate::table::Table;
use correction::correction::Correction;
use job::job::Job;
use model::{Party, Refusal};
use store::Store;

impl Table {
    // Opens a correction and answers the numbers of its slip.
    pub fn open_correction(&mut self) -> Result<SlipNumbers, Refusal>
        ensures next { (C : List ℕ) → state_of C self.new ≡ (open_correction (state_of C self.old)).next }
        ensures answer { (C : List ℕ) → numbered result ≡ (open_correction (state_of C self.old)).answer }
    {
        if self.corrections.is_full() {
            return Err(Refusal::TooManyCorrections);
        }
        self.corrections.push(Correction::new());
        Ok(SlipNumbers {
            run: self.number,
            correction: self.corrections.len() as u32,
        })
    }

    // The place of the correction that a slip stands for, open or not.
    fn place_by(&self, slip: SlipNumbers) -> Result<usize, Refusal>
        ensures { Finds self.now (numbers slip) result }
    {
        let place = (slip.correction as usize).checked_sub(1);
        place
            .filter(|i| slip.run == self.number && *i < self.corrections.len())
            .ok_or(Refusal::NotOpen)
    }

    // Reads a cell for the correction of a slip.
    pub fn read<S: Store>(
        &mut self,
        slip: SlipNumbers,
        store: &S,
        cell: u32,
    ) -> Result<u32, Refusal>
        ensures { Corrects (reading cell) (S.Store.cells store.now) (S.Store.cells store.now) self.old self.new (numbers slip) result }
    {
        let i = self.place_by(slip)?;
        self.corrections[i].read(store, cell)
    }

    // Writes a number for a cell, likewise.
    pub fn write<S: Store>(
        &mut self,
        slip: SlipNumbers,
        store: &S,
        cell: u32,
        number: u32,
    ) -> Result<(), Refusal>
        ensures { Corrects (writing cell number) (S.Store.cells store.now) (S.Store.cells store.now) self.old self.new (numbers slip) result }
    {
        let i = self.place_by(slip)?;
        self.corrections[i].write(store, cell, number)
    }

    // Closes the correction, likewise.
    pub fn withdraw(&mut self, slip: SlipNumbers) -> Result<(), Refusal>
        ensures { (C : List ℕ) → Corrects withdrawing C C self.old self.new (numbers slip) result }
    {
        let i = self.place_by(slip)?;
        self.corrections[i].withdraw()
    }

    // Sets what the correction wrote, removes all marks and joins the commit order, likewise.
    pub fn file<S: Store>(&mut self, slip: SlipNumbers, store: &mut S) -> Result<(), Refusal>
        ensures run { Corrects file_by (S.Store.cells store.old) (S.Store.cells store.new) self.old self.new (numbers slip) result }
        ensures loan { S.Store.loan store.new ≡ S.Store.loan store.old }
        ensures store { Through S.Store.sets (file_by (state_of (S.Store.cells store.old) self.old) (numbers slip).correction (held (state_of (S.Store.cells store.old) self.old) (numbers slip))).events store.old store.new }
        ensures refused { OnErr result (store.new ≡ store.old) }
    {
        let i = self.place_by(slip)?;
        self.corrections[i].check(store, self.right)?;
        let written = self.corrections[i].commit(store);
        unmark_all(self.jobs.as_mut_slice());
        self.order.push(Party::Correction(i as u32 + 1));
        self.takings = self.takings.wrapping_add(1);
        self.settings = self.settings.wrapping_add(written);
        Ok(())
    }
}

// Removes the marks of all jobs.
fn unmark_all(jobs: &mut [Job])
    ensures { map job_of jobs.new ≡ map unmark (map job_of jobs.old) }
{
    for job in jobs.iter_mut() {
        job.unmark();
    }
}

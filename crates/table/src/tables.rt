ghost use Rattle.std.specs.Prelude.{◌≡◌, ℕ, suc, ◌<◌, ◌≤◌, false, List, length, Some, None};
ghost use Rattle.std.specs.Result.{MatchResult};
ghost use Rattle.model.specs.declared.Refusal.TheVariants.{NoSuchJob};
ghost use Rattle.arrayvec.specs.ArrayVec.{array_vec_len};
ghost use Rattle.model.specs.Intake.{starts_or};
ghost use Rattle.model.specs.Logs.{at};
ghost use Rattle.job.specs.Shape.{is_done};
ghost use Rattle.model.specs.Rules.{JobState, other_marked, right_taken, unmark_in, with_jobs};
ghost use Rattle.table.specs.States.{jobs_in, state_of, JobTurns, WriteTaken, Finished};

use crate::table::Table;
use job::moves::Move;
use model::{Entry, Party, Refusal};
use store::Store;

// A job's place is a number, and nothing ties it to a table by its type, so each function that is given one says that it
// is a place.
impl Table {
    // How many jobs were admitted.
    pub fn len(&self) -> usize
        ensures value { result ≡ length (jobs_in self.now) }
        ensures few { result ≤ 16 }
    {
        self.jobs.len()
    }

    // The place of an admitted job, by its number.
    pub(crate) fn place_of(&self, job: u32) -> Result<usize, Refusal>
        ensures { MatchResult result (λ i. (job ≡ suc i) × (i < array_vec_len self.now.jobs)) (λ refusal. (refusal ≡ NoSuchJob) × (at (jobs_in self.now) job ≡ None)) }
    {
        let place = (job as usize).checked_sub(1);
        place
            .filter(|i| *i < self.jobs.len())
            .ok_or(Refusal::NoSuchJob)
    }

    // The turn of the job at a place, as far as it changes the job.
    pub(crate) fn turn_job<S: Store>(&mut self, i: usize, store: &S) -> Move
        requires { i < array_vec_len self.old.jobs }
        ensures { JobTurns (S.Store.cells store.now) self.old self.new i result }
    {
        self.jobs[i].turn(store, self.right)
    }

    // The job at a place takes the commit right.
    pub(crate) fn take_right(&mut self, i: usize)
        requires { i < array_vec_len self.old.jobs }
        ensures { (C : List ℕ) → state_of C self.new ≡ right_taken (state_of C self.old) (suc i) }
    {
        self.right = Some(i as u32 + 1);
        self.takings = self.takings.wrapping_add(1);
    }

    // The lowest marked job but the one at this place, by its number.
    pub(crate) fn other_marked(&self, i: usize) -> Option<u32>
        ensures { result ≡ other_marked (suc i) 1 (jobs_in self.now) }
    {
        let mut jobs = self.jobs.iter().enumerate();
        let (place, _) = jobs.find(|(k, job)| job.is_marked() && *k != i)?;
        Some(place as u32 + 1)
    }

    // Removes the mark of a job, by its number.
    pub(crate) fn unmark(&mut self, job: u32)
        ensures { (C : List ℕ) → state_of C self.new ≡ with_jobs (state_of C self.old) (unmark_in (jobs_in self.old) job (at (jobs_in self.old) job)) }
    {
        if let Ok(i) = self.place_of(job) {
            self.jobs[i].unmark();
        }
    }

    // Takes the lowest entry out of the write log of the job at a place, and counts the setting.
    #[tactic(auto, using(crate::proofs::Tabling::room_kept, crate::proofs::Tabling::as_many, crate::proofs::Tabling::done_write))]
    pub(crate) fn take_write(&mut self, i: usize) -> Option<Entry>
        requires { i < array_vec_len self.old.jobs }
        ensures { WriteTaken self.old self.new i result }
    {
        let entry = self.jobs[i].take_write()?;
        self.settings = self.settings.wrapping_add(1);
        Some(entry)
    }

    // The job at a place frees the right and joins the commit order.
    pub(crate) fn finish(&mut self, i: usize)
        requires place { i < array_vec_len self.old.jobs }
        requires commit { (b : JobState) × (at (jobs_in self.old) (suc i) ≡ Some b) × (is_done b.stage ≡ false) }
        ensures { Finished self.old self.new i }
    {
        self.jobs[i].finish();
        self.order.push(Party::Job(i as u32 + 1));
        self.right = None;
    }
}

impl Table {
    // The run's number.
    pub fn number(&self) -> u32
        ensures { result ≡ self.now.number }
    {
        self.number
    }

    // Who holds the commit right.
    pub fn right(&self) -> Option<u32>
        ensures { result ≡ self.now.right }
    {
        self.right
    }

    // How often the right was taken.
    pub fn takings(&self) -> u32
        ensures { result ≡ self.now.takings }
    {
        self.takings
    }

    // How often a cell was set.
    pub fn settings(&self) -> u32
        ensures { result ≡ self.now.settings }
    {
        self.settings
    }

    // Who stands at a place of the commit order, from 1.
    pub fn entry(&self, place: u32) -> Option<Party>
        ensures { result ≡ at self.now.order.items place }
    {
        let i = (place as usize).checked_sub(1)?;
        self.order.get(i).copied()
    }

    // How many entries the commit order has.
    pub fn commits(&self) -> usize
        ensures value { result ≡ length self.now.order.items }
        ensures few { result ≤ 24 }
    {
        self.order.len()
    }

    // How often a job has started.
    pub fn starts(&self, job: u32) -> Result<u32, Refusal>
        ensures { result ≡ starts_or (at (jobs_in self.now) job) }
    {
        let i = self.place_of(job)?;
        Ok(self.jobs[i].starts())
    }
}

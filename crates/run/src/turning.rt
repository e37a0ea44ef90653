ghost use Rattle.std.specs.Prelude.{◌≡◌, ℕ, List, false, None};
ghost use Rattle.model.specs.Calls.{Call, turn, settle, after};
ghost use Rattle.model.specs.Law.{CorrectionsGoAsJobs, IdleChangesNothing, JobsRead, JoinsLast, Lawful, left_by};
ghost use Rattle.model.specs.Rules.{State};
ghost use Rattle.run.specs.Reached.{Lawfully, LeftBy};
ghost use Rattle.model.specs.Intake.{closed_cells, cell_answer, entry_answer, starts_answer};
ghost use Rattle.run.specs.Runs.{state};
ghost use Rattle.table.specs.Settings.{Through, by_c2, turn_sets};

use crate::run::Run;
use model::{Applied, Party, Refusal};
use store::Store;

// A committing job has at most 24 cells to set, and then frees the right.
const MOST_COMMIT_TURNS: usize = 25;

impl<S: Store> Run<S> {
    // Gives a job one turn, which applies the first rule of the job's stage that fits, or answers `None`. By c2 it sets the
    // store once, and by no other rule at all.
    pub fn turn(&mut self, job: u32) -> Result<Option<Applied>, Refusal>
        ensures next { state S.Store.cells self.new ≡ (turn (state S.Store.cells self.old) job).next }
        ensures answer { result ≡ (turn (state S.Store.cells self.old) job).answer }
        ensures loan { S.Store.loan self.new.store ≡ S.Store.loan self.old.store }
        ensures store { Through S.Store.sets (turn (state S.Store.cells self.old) job).events self.old.store self.new.store }
        ensures kept { turn_sets result ≡ false → self.new.store ≡ self.old.store }
        ensures once { (cell : ℕ) → result ≡ by_c2 cell → (number : ℕ) × S.Store.sets self.old.store cell number self.new.store }
    {
        self.table.turn(&mut self.store, job)
    }

    // Gives turns to the job that holds the commit right until the right is free. Each c2 among them sets the store once;
    // where the right is free already, the store stays the very same.
    pub fn settle(&mut self)
        ensures next { state S.Store.cells self.new ≡ (settle (state S.Store.cells self.old)).next }
        ensures loan { S.Store.loan self.new.store ≡ S.Store.loan self.old.store }
        ensures store { Through S.Store.sets (settle (state S.Store.cells self.old)).events self.old.store self.new.store }
        ensures kept { (state S.Store.cells self.old).right ≡ None → self.new.store ≡ self.old.store }
    {
        // The bound stays: that the holder of the right gets on with its commit is no fact of a run's type, so by itself
        // `while let` would not be seen to end.
        let most = self.table.len() + MOST_COMMIT_TURNS;
        for _ in 0..most {
            let Some(holder) = self.table.right() else {
                return;
            };
            let _ = self.turn(holder);
        }
    }

    // Settles, ends the run and gives its store back, the very one where the right was free.
    pub fn close(mut self) -> S
        ensures cells { S.Store.cells result ≡ closed_cells (state S.Store.cells self) }
        ensures left { ∥ LeftBy (state S.Store.cells self) (S.Store.cells result) ∥₁ }
        ensures serial { (s₀ : State) (calls : List Call) → Lawful s₀ → state S.Store.cells self ≡ after s₀ calls → S.Store.cells result ≡ left_by s₀ calls }
        ensures loan { S.Store.loan result ≡ S.Store.loan self.store }
        ensures store { Through S.Store.sets (settle (state S.Store.cells self)).events self.store result }
        ensures kept { (state S.Store.cells self).right ≡ None → result ≡ self.store }
    {
        self.settle();
        let Run { store, table: _ } = self;
        store
    }

    // That the law holds of this run, whoever made it and whatever was called; and, of the run as it stands, what the law
    // says of one call more.
    pub fn law(&self)
        ensures lawful { ∥ Lawfully (state S.Store.cells self.now) ∥₁ }
        ensures idle { IdleChangesNothing (state S.Store.cells self.now) }
        ensures joins { JoinsLast (state S.Store.cells self.now) }
        ensures reads { JobsRead (state S.Store.cells self.now) }
        ensures as_jobs { CorrectionsGoAsJobs (state S.Store.cells self.now) }
    {}

    // The number of a cell.
    pub fn cell(&self, cell: u32) -> Result<u32, Refusal>
        ensures { result ≡ cell_answer (state S.Store.cells self.now) cell }
    {
        self.store.get(cell).ok_or(Refusal::NoSuchCell)
    }

    // Who stands at a place of the commit order, from 1.
    pub fn entry(&self, place: u32) -> Option<Party>
        ensures { result ≡ entry_answer (state S.Store.cells self.now) place }
    {
        self.table.entry(place)
    }

    // How often a job has started.
    pub fn starts(&self, job: u32) -> Result<u32, Refusal>
        ensures { result ≡ starts_answer (state S.Store.cells self.now) job }
    {
        self.table.starts(job)
    }

    // How often the commit right was taken.
    pub fn takings(&self) -> u32
        ensures { result ≡ (state S.Store.cells self.now).takings }
    {
        self.table.takings()
    }

    // How often a cell was set.
    pub fn settings(&self) -> u32
        ensures { result ≡ (state S.Store.cells self.now).settings }
    {
        self.table.settings()
    }
}

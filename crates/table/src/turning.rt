ghost use Rattle.std.specs.Prelude.{◌≡◌, suc, ◌<◌, Some, Ok};
ghost use Rattle.arrayvec.specs.ArrayVec.{array_vec_len};
ghost use Rattle.model.specs.Calls.{turn};
ghost use Rattle.model.specs.Logs.{at};
ghost use Rattle.model.specs.Rules.{JobState};
ghost use Rattle.model.specs.declared.Stage.TheVariants.{Commit};
ghost use Rattle.table.specs.Settings.{Through};
ghost use Rattle.table.specs.States.{jobs_in, state_of};

use crate::table::Table;
use job::moves::Move;
use model::{Applied, Refusal, Rule};
use store::Store;

impl Table {
    // Gives a job one turn, which applies the first rule of the job's stage that fits, or answers `None`.
    pub fn turn<S: Store>(&mut self, store: &mut S, job: u32) -> Result<Option<Applied>, Refusal>
        ensures next { state_of (S.Store.cells store.new) self.new ≡ (turn (state_of (S.Store.cells store.old) self.old) job).next }
        ensures answer { result ≡ (turn (state_of (S.Store.cells store.old) self.old) job).answer }
        ensures loan { S.Store.loan store.new ≡ S.Store.loan store.old }
        ensures store { Through S.Store.sets (turn (state_of (S.Store.cells store.old) self.old) job).events store.old store.new }
    {
        let i = self.place_of(job)?;
        match self.turn_job(i, store) {
            Move::NoRule => Ok(None),
            Move::Applies(applied) => Ok(Some(applied)),
            Move::Takes => {
                self.take_right(i);
                Ok(Some(Applied {
                    rule: Rule::V3,
                    cell: None,
                }))
            }
            Move::Commits => Ok(Some(self.commit(store, i))),
        }
    }

    // The turn of a job that holds the commit right. Why its place is told: see `tables.rt`.
    fn commit<S: Store>(&mut self, store: &mut S, i: usize) -> Applied
        requires place { i < array_vec_len self.old.jobs }
        requires stage { (b : JobState) × (at (jobs_in self.old) (suc i) ≡ Some b) × (b.stage ≡ Commit) }
        ensures next { state_of (S.Store.cells store.new) self.new ≡ (turn (state_of (S.Store.cells store.old) self.old) (suc i)).next }
        ensures answer { Ok (Some result) ≡ (turn (state_of (S.Store.cells store.old) self.old) (suc i)).answer }
        ensures loan { S.Store.loan store.new ≡ S.Store.loan store.old }
        ensures store { Through S.Store.sets (turn (state_of (S.Store.cells store.old) self.old) (suc i)).events store.old store.new }
    {
        if let Some(marked) = self.other_marked(i) {
            self.unmark(marked);
            return Applied {
                rule: Rule::C1,
                cell: None,
            };
        }
        if let Some(entry) = self.take_write(i) {
            store.set(entry.cell, entry.number);
            return Applied {
                rule: Rule::C2,
                cell: Some(entry.cell),
            };
        }
        self.finish(i);
        Applied {
            rule: Rule::C3,
            cell: None,
        }
    }
}

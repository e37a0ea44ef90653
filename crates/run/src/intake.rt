ghost use Rattle.std.specs.Prelude.{◌≡◌, []};
ghost use Rattle.model.specs.Intake.{admit};
ghost use Rattle.model.specs.Law.{Lawful};
ghost use Rattle.table.specs.Intakes.{intake_of};
ghost use Rattle.run.specs.Runs.{begun, state};

use crate::run::Run;
use model::{Fault, Step};
use store::Store;
use table::roster::Roster;

// A run that takes in jobs and no turns. Sealing turns it into a running run.
pub struct Intake<S: Store> {
    store: S,
    roster: Roster,
}

impl<S: Store> Intake<S> {
    // An intake over a store, for the run with this number.
    pub fn new(store: S, number: u32) -> Intake<S>
        ensures intake { intake_of (S.Store.cells result.store) result.roster ≡ record { number = number; cells = S.Store.cells store; programs = [] } }
        ensures store { result.store ≡ store }
    {
        Intake {
            store,
            roster: Roster::new(number),
        }
    }

    // Admits a job and answers its number, from 1, or refuses, admits nothing and uses no number.
    pub fn admit(&mut self, steps: &[Step]) -> Result<u32, Fault>
        ensures after { intake_of (S.Store.cells self.new.store) self.new.roster ≡ (admit (intake_of (S.Store.cells self.old.store) self.old.roster) steps.now).0 }
        ensures answer { result ≡ (admit (intake_of (S.Store.cells self.old.store) self.old.roster) steps.now).1 }
        ensures store { self.new.store ≡ self.old.store }
    {
        let cells = self.store.count();
        self.roster.admit(cells, steps)
    }

    // Ends the intake and begins the run. From here on the law holds, whatever is called.
    pub fn seal(self) -> Run<S>
        ensures sealed { state S.Store.cells result ≡ begun S.Store.cells self }
        ensures lawful { Lawful (state S.Store.cells result) }
        ensures store { result.store ≡ self.store }
    {
        let Intake { store, roster } = self;
        Run {
            store,
            table: roster.into_table(),
        }
    }
}

ghost use Rattle.std.specs.Prelude.{◌≡◌, ℕ, List, [], length};
ghost use Rattle.model.specs.Intake.{admit_unless, admission_fault, sealed};
ghost use Rattle.table.specs.Intakes.{intake_of};
ghost use Rattle.table.specs.States.{state_of};

use crate::roster::Roster;
use crate::table::Table;
use arrayvec::ArrayVec;
use job::job::Job;
use model::{Fault, Step};

impl Roster {
    pub fn new(number: u32) -> Roster
        ensures { (C : List ℕ) → intake_of C result ≡ record { number = number; cells = C; programs = [] } }
    {
        Roster {
            number,
            jobs: ArrayVec::new(),
        }
    }

    // Admits a job over a store of so many cells, and answers its number.
    pub fn admit(&mut self, cells: usize, steps: &[Step]) -> Result<u32, Fault>
        ensures after { (C : List ℕ) → intake_of C self.new ≡ (admit_unless (intake_of C self.old) steps.now (admission_fault (length (intake_of C self.old).programs) cells steps.now)).0 }
        ensures answer { (C : List ℕ) → result ≡ (admit_unless (intake_of C self.old) steps.now (admission_fault (length (intake_of C self.old).programs) cells steps.now)).1 }
    {
        let job = Job::admit(self.jobs.len(), cells, steps)?;
        self.jobs.push(job);
        Ok(self.jobs.len() as u32)
    }

    // The table of a run in which no job has had a turn.
    pub fn into_table(self) -> Table
        ensures { (C : List ℕ) → state_of C result ≡ sealed (intake_of C self) }
    {
        Table {
            number: self.number,
            jobs: self.jobs,
            corrections: ArrayVec::new(),
            right: None,
            order: ArrayVec::new(),
            takings: 0,
            settings: 0,
        }
    }
}

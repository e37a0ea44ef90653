ghost use Rattle.std.specs.Prelude.{◌≡◌, ℕ, suc, List, length};
ghost use Rattle.script.specs.Faults.{read_fields};
ghost use Rattle.listing_reader.specs.Drafts.{progress_of};
ghost use Rattle.listing_reader.specs.Entries.{entered};
ghost use Rattle.listing_reader.specs.Parts.{kind_in, Placed};

use crate::draft::Draft;
use crate::entry::Entry;
use crate::line::Line;
use crate::numbers::{FieldPlace, step_in};
use script::{Allotment, ListingFault, Preset, Test};

impl Draft {
    // How many jobs were admitted.
    fn job_count(&self) -> u32
        ensures { result ≡ length (progress_of self.now).jobs }
    {
        self.lists.jobs.len() as u32
    }

    // The number that the next job has to have.
    fn next_job(&self) -> u32
        ensures { result ≡ suc (length (progress_of self.now).jobs) }
    {
        self.job_count() + 1
    }

    // What a line that is in order says.
    pub(crate) fn entry(&self, content: Line) -> Result<Entry, ListingFault>
        ensures { (fields : List ℕ) → Placed fields content.entry → read_fields (progress_of self.now) self.now.line (kind_in content.entry) fields ≡ entered (progress_of self.now) self.now.line result }
    {
        let first = FieldPlace {
            line: self.line,
            k: 0,
        };
        let second = FieldPlace {
            line: self.line,
            k: 1,
        };
        match content {
            Line::Size(count) => {
                let count = first.number(count, Test::CellCount)?;
                Ok(Entry::Size(count))
            }
            Line::Cell(cell, number) => {
                let cell = first.number(cell, Test::CellBelow(self.count))?;
                let number = second.any_number(number)?;
                Ok(Entry::Preset(Preset { cell, number }))
            }
            Line::Job(job) => {
                first.number(job, Test::JobNumber(self.next_job()))?;
                Ok(Entry::Job)
            }
            Line::Turns(job, turns) => {
                let job = first.number(job, Test::JobUpTo(self.job_count()))?;
                let turns = second.number(turns, Test::TurnCount)?;
                Ok(Entry::Turns(Allotment { job, turns }))
            }
            step => Ok(Entry::Step(step_in(step, self.line)?)),
        }
    }
}

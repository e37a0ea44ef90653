ghost use Rattle.std.specs.Prelude.{◌≡◌, ◌+◌, ◌<◌, ◌≤◌, length, vec_len, MatchOption};
ghost use Rattle.model.specs.Intake.{admission_fault};
ghost use Rattle.script.specs.Faults.{fault_at, column_of, admit_job, admit_before};
ghost use Rattle.script.specs.declared.Cause.TheVariants.{Admission};
ghost use Rattle.listing_reader.specs.Drafts.{progress_of, Reads};

use crate::draft::Draft;
use job::admission::admission_fault;
use job::program::Program;
use model::Fault;
use script::{Cause, ListingFault, Section};

// Where the fault of a job whose J line is this one stands in the listing.
fn in_job(job_line: u32, fault: Fault) -> ListingFault
    requires line { job_line ≤ 32768 }
    requires step { fault.step ≤ 24 }
    requires field { fault.field ≤ 3 }
    ensures { result ≡ fault_at (Admission fault) (job_line + fault.step) (column_of fault.field) }
{
    let line = job_line + fault.step;
    match fault.field.checked_sub(1) {
        Some(before) => ListingFault::of_field(Cause::Admission(fault), line, before as u8),
        None => ListingFault::of_line(Cause::Admission(fault), line),
    }
}

impl Draft {
    // Why the job that was read is not admitted.
    fn job_fault(&self) -> Option<Fault>
        ensures value { result ≡ admission_fault (length (progress_of self.now).jobs) self.now.count self.now.steps.items }
        ensures bounds { MatchOption result (vec_len self.now.lists.jobs < 16) (λ f. (f.step ≤ 24) × (f.field ≤ 3)) }
    {
        admission_fault(
            self.lists.jobs.len(),
            self.count as usize,
            self.steps.as_slice(),
        )
    }

    // Admits the job that was read.
    fn admit_job(&mut self) -> Result<(), ListingFault>
        ensures read { Reads (admit_job (progress_of self.old)) result self.new }
        ensures line { self.new.line ≡ self.old.line }
    {
        if let Some(fault) = self.job_fault() {
            return Err(in_job(self.job_line, fault));
        }
        let program = Program::new(self.steps.as_slice()).unwrap();
        self.lists.jobs.push_reserved(program);
        self.section = Section::AfterJob;
        Ok(())
    }

    // Admits the job that was read, if there is one and no step of it follows. The flag is all that is known of what
    // follows: no value goes with it.
    pub(crate) fn admit_before(&mut self, step_follows: bool) -> Result<(), ListingFault>
        ensures read { Reads (admit_before (progress_of self.old) step_follows) result self.new }
        ensures line { self.new.line ≡ self.old.line }
    {
        match (self.section, step_follows) {
            (Section::InJob, false) => self.admit_job(),
            _ => Ok(()),
        }
    }
}

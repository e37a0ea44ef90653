ghost use Rattle.std.specs.Prelude.{◌≡◌, true, [], ◌∷◌, Some, None};
ghost use Rattle.std.specs.Result as results;
ghost use Rattle.model.specs.Intake.{admission_fault, new_job};
ghost use Rattle.model.specs.Rules.{in_stage, unmark};
ghost use Rattle.model.specs.declared.Stage.TheVariants.{Done};
ghost use Rattle.model.specs.declared.Step.TheVariants as step;
ghost use Rattle.job.specs.Jobs.{job_of};
ghost use Rattle.job.specs.Moves.{Moves, WriteOf};
ghost use Rattle.job.specs.Programs.{steps_in};
ghost use Rattle.job.specs.Shape.{runnable};

use crate::admission::{MOST_STEPS, REGISTERS, admission_fault};
use crate::job::Job;
use crate::moves::Move;
use crate::program::Program;
use cell_log::{Logs, Lookups};
use model::{Entry, Fault, Stage, Step};
use store::Store;

impl Job {
    // The steps as a job that has not started, if they are admitted after so many jobs, over so many cells.
    pub fn admit(jobs: usize, count: usize, steps: &[Step]) -> Result<Job, Fault>
        ensures { results.MatchResult result (λ b. (admission_fault jobs count steps.now ≡ None) × (job_of b ≡ new_job steps.now)) (λ f. admission_fault jobs count steps.now ≡ Some f) }
    {
        if let Some(fault) = admission_fault(jobs, count, steps) {
            return Err(fault);
        }
        Ok(Job::unstarted(Program::new(steps).unwrap()))
    }

    // A job with that program, which has not started.
    fn unstarted(program: Program) -> Job
        requires { runnable (steps_in program) ≡ true }
        ensures { job_of result ≡ new_job (steps_in program) }
    {
        Job {
            program,
            stage: Stage::Start,
            registers: [0; REGISTERS],
            logs: Logs::empty(),
            marked: false,
            starts: 0,
        }
    }

    // Applies the first rule of the job's stage that fits, as far as it changes the job. Each method is told the stage and
    // the step: see `stages.rt`.
    #[tactic(auto, using(crate::proofs::Standing::adds, crate::proofs::Standing::subtracts))]
    pub fn turn<S: Store>(&mut self, store: &S, right: Option<u32>) -> Move
        ensures { Moves (S.Store.cells store.now) right (job_of self.old) (job_of self.new) result }
    {
        match (self.stage, self.step(), right) {
            (Stage::Start, _, _) => self.start(),
            (Stage::At(n), Step::Read { register, cell }, _) => self.read(store, n, register, cell),
            (Stage::At(n), Step::Write { cell, register }, _) => self.write(n, cell, register),
            (Stage::At(n), Step::Load { register, number }, _) => self.put(n, register, number),
            (Stage::At(n), Step::Add { register, other }, _) => {
                self.put(n, register, self.at(register).wrapping_add(self.at(other)))
            }
            (Stage::At(n), Step::Subtract { register, other }, _) => {
                self.put(n, register, self.at(register).wrapping_sub(self.at(other)))
            }
            (
                Stage::At(n),
                Step::JumpIfLess {
                    register,
                    other,
                    step,
                },
                _,
            ) => self.jump(n, register, other, step),
            (Stage::At(n), Step::Wait, _) => self.wait(store, n),
            (Stage::At(n), Step::End, None) => self.end(n),
            (Stage::At(_), Step::End, Some(_)) => Move::NoRule,
            (Stage::Rollback, _, _) => self.to_start(),
            (Stage::Validate, _, _) => self.validate(store, right),
            (Stage::Commit, _, _) => Move::Commits,
            (Stage::Done, _, _) => Move::NoRule,
        }
    }

    // Whether the job has its mark.
    pub fn is_marked(&self) -> bool
        ensures { result ≡ (job_of self.now).marked }
    {
        self.marked
    }

    pub fn unmark(&mut self)
        ensures { job_of self.new ≡ unmark (job_of self.old) }
    {
        self.marked = false;
    }

    // Takes the lowest entry out of the write log.
    pub fn take_write(&mut self) -> Option<Entry>
        ensures { WriteOf (job_of self.old) (job_of self.new) result }
    {
        let entry = *self.logs.writes().entries().first()?;
        self.logs.forget_write(entry.cell);
        Some(entry)
    }

    // The job has committed.
    pub fn finish(&mut self)
        ensures { job_of self.new ≡ in_stage (job_of self.old) Done }
    {
        self.stage = Stage::Done;
    }

    // How often the job has started.
    pub fn starts(&self) -> u32
        ensures { result ≡ (job_of self.now).starts }
    {
        self.starts
    }
}

// A job that only ends. It fills the places of a run's table that no job was admitted to.
impl Default for Job {
    ghost is_default = { λ b. job_of b ≡ new_job (step.End ∷ []) };

    // A run makes one for each place of its table. Written out, and not by `Program::new`, which copies the steps; and not
    // inlined: in one piece with the loop over the places, the whole table was copied several times more.
    #[inline(never)]
    fn default() -> Job {
        Job::unstarted(Program {
            steps: [Step::End; MOST_STEPS],
            len: 1,
        })
    }
}

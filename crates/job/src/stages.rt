ghost use Rattle.std.specs.Prelude.{◌≡◌, ℕ, suc, ◌<◌, List, length, Some, None, slice_set};
ghost use Rattle.std.specs.declared.option.Option as option;
ghost use Rattle.model.specs.Steps.{register};
ghost use Rattle.model.specs.Rules.{step_of, in_stage, with_registers};
ghost use Rattle.model.specs.declared.Stage.TheVariants.{Start, At, Validate, Rollback};
ghost use Rattle.model.specs.declared.Step.TheVariants as step;
ghost use Rattle.job.specs.Jobs.{job_of};
ghost use Rattle.job.specs.Moves.{Moves, Makes, read_rule};

use crate::admission::REGISTERS;
use crate::job::Job;
use crate::moves::Move;
use cell_log::{Found, Lookups};
use model::{Applied, Rule, Stage, Step};
use store::Store;

// The answer of a rule that names no cell, and of one that does. Two, since a rule always names one or never does, and
// an Option at each call would say no more.
fn applies(rule: Rule) -> Move
    ensures { result ≡ Move.Applies (record { rule = rule; cell = None }) }
{
    Move::Applies(Applied { rule, cell: None })
}

fn applies_at(rule: Rule, cell: u32) -> Move
    ensures { result ≡ Move.Applies (record { rule = rule; cell = Some cell }) }
{
    Move::Applies(Applied {
        rule,
        cell: Some(cell),
    })
}

// The rule under which a number is read that was found there.
fn read_rule(found: Found) -> Rule
    ensures { result ≡ read_rule found }
{
    match found {
        Found::InWrites => Rule::R1,
        Found::InReads => Rule::R2,
        Found::InStore => Rule::R3,
    }
}

// What `turn` has matched, the stage and the step, each method is told in its own contract: a job is matched whole and
// in one place, and a type that held a job at its step would only match it again.
impl Job {
    // The step at which the job stands.
    pub(crate) fn step(&self) -> Step
        ensures { result ≡ step_of (job_of self.now) }
    {
        match self.stage {
            Stage::At(n) => self.program.steps()[n as usize],
            _ => self.program.steps()[0],
        }
    }

    // Empties the logs, entry by entry, and starts.
    pub(crate) fn start(&mut self) -> Move
        requires stage { self.old.stage ≡ Start }
        ensures { (C : List ℕ) (right : option.Option ℕ) → Moves C right (job_of self.old) (job_of self.new) result }
    {
        if let Some(cell) = self.logs.writes().lowest() {
            self.logs.forget_write(cell);
            return applies_at(Rule::S1, cell);
        }
        if let Some(cell) = self.logs.reads().lowest() {
            self.logs.forget_read(cell);
            return applies_at(Rule::S2, cell);
        }
        self.registers = [0; REGISTERS];
        self.starts = self.starts.wrapping_add(1);
        self.stage = Stage::At(0);
        applies(Rule::S3)
    }

    pub(crate) fn to_start(&mut self) -> Move
        requires stage { self.old.stage ≡ Rollback }
        ensures { (C : List ℕ) (right : option.Option ℕ) → Moves C right (job_of self.old) (job_of self.new) result }
    {
        self.stage = Stage::Start;
        applies(Rule::Rb)
    }

    // The number in a register.
    pub(crate) fn at(&self, r: u32) -> u32
        requires { r < 8 }
        ensures { result ≡ register self.now.registers r }
    {
        self.registers[r as usize]
    }

    pub(crate) fn read<S: Store>(&mut self, store: &S, n: u32, register: u32, cell: u32) -> Move
        requires stage { self.old.stage ≡ At n }
        requires step { step_of (job_of self.old) ≡ step.Read register cell }
        ensures { (right : option.Option ℕ) → Moves (S.Store.cells store.now) right (job_of self.old) (job_of self.new) result }
    {
        let reading = self.logs.read(store, cell).unwrap();
        self.registers[register as usize] = reading.number;
        self.stage = Stage::At(n + 1);
        applies_at(read_rule(reading.found), cell)
    }

    pub(crate) fn write(&mut self, n: u32, cell: u32, register: u32) -> Move
        requires stage { self.old.stage ≡ At n }
        requires step { step_of (job_of self.old) ≡ step.Write cell register }
        ensures { (C : List ℕ) (right : option.Option ℕ) → Moves C right (job_of self.old) (job_of self.new) result }
    {
        let known = self.logs.writes().number(cell).is_some();
        let number = self.at(register);
        self.logs.write(cell, number).unwrap();
        self.stage = Stage::At(n + 1);
        if known {
            applies_at(Rule::W1, cell)
        } else {
            applies_at(Rule::W2, cell)
        }
    }

    // Puts what the step makes of the registers into its register, and goes on to the next step.
    pub(crate) fn put(&mut self, n: u32, register: u32, number: u32) -> Move
        requires stage { self.old.stage ≡ At n }
        requires step { Makes (step_of (job_of self.old)) self.old.registers register number }
        ensures { (C : List ℕ) (right : option.Option ℕ) → Moves C right (job_of self.old) (job_of self.new) result }
    {
        self.registers[register as usize] = number;
        self.stage = Stage::At(n + 1);
        applies(Rule::P)
    }

    pub(crate) fn jump(&mut self, n: u32, register: u32, other: u32, target: u32) -> Move
        requires stage { self.old.stage ≡ At n }
        requires step { step_of (job_of self.old) ≡ step.JumpIfLess register other target }
        ensures { (C : List ℕ) (right : option.Option ℕ) → Moves C right (job_of self.old) (job_of self.new) result }
    {
        if self.at(register) < self.at(other) {
            self.stage = Stage::At(target.saturating_sub(1));
        } else {
            self.stage = Stage::At(n + 1);
        }
        applies(Rule::P)
    }

    pub(crate) fn wait<S: Store>(&mut self, store: &S, n: u32) -> Move
        requires stage { self.old.stage ≡ At n }
        requires step { step_of (job_of self.old) ≡ step.Wait }
        ensures { (right : option.Option ℕ) → Moves (S.Store.cells store.now) right (job_of self.old) (job_of self.new) result }
    {
        match self.logs.reads().lowest_changed(store) {
            Some(cell) => {
                self.stage = Stage::Rollback;
                applies_at(Rule::Rt, cell)
            }
            None => Move::NoRule,
        }
    }

    pub(crate) fn end(&mut self, n: u32) -> Move
        requires stage { self.old.stage ≡ At n }
        requires step { step_of (job_of self.old) ≡ step.End }
        ensures { (C : List ℕ) → Moves C None (job_of self.old) (job_of self.new) result }
    {
        self.marked = true;
        self.stage = Stage::Validate;
        applies(Rule::E)
    }

    pub(crate) fn validate<S: Store>(&mut self, store: &S, right: Option<u32>) -> Move
        requires stage { self.old.stage ≡ Validate }
        ensures { Moves (S.Store.cells store.now) right (job_of self.old) (job_of self.new) result }
    {
        if !self.marked {
            self.stage = Stage::Rollback;
            return applies(Rule::V4);
        }
        if let Some(cell) = self.logs.reads().lowest_current(store) {
            self.logs.forget_read(cell);
            return applies_at(Rule::V1, cell);
        }
        if let Some(cell) = self.logs.reads().lowest_changed(store) {
            self.logs.forget_read(cell);
            self.marked = false;
            self.stage = Stage::Rollback;
            return applies_at(Rule::V2, cell);
        }
        if right.is_some() {
            self.stage = Stage::Rollback;
            return applies(Rule::V4);
        }
        self.marked = false;
        self.stage = Stage::Commit;
        Move::Takes
    }
}

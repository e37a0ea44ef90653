use crate::checks::Checks;
use crate::outcomes::ADDERS;
use crate::programs::adder;
use model::{Fault, Refusal, Step};
use run::intake::Intake;
use run::run::Run;
use store::Store;
use store::word_table::WordTable;

// How many cells the store of these tests has.
const CELLS: u32 = 2;

// Refused admissions, then as many jobs as there may be, which have the numbers from 1 on, and one more.
#[test]
fn admissions(rt: HostRuntime) {
    let mut checks = Checks::new();
    let mut words = [0; CELLS as usize];
    let mut intake = Intake::new(WordTable::new(&mut words), 1);
    refuses_steps(&mut checks, &mut intake);
    refuses_programs(&mut checks, &mut intake);
    checks.that("admissions: the longest", intake.admit(&longest()) == Ok(1));
    for job in 2..=ADDERS {
        checks.that(
            "admissions: as many as there may be",
            intake.admit(&adder(1, 1)) == Ok(job),
        );
    }
    checks.that(
        "admissions: a 17th",
        intake.admit(&[]) == fault(Refusal::TooManyJobs, 0, 0),
    );
    drop(intake.seal().close());
    assert_eq!(rt; checks.failed(), None);
}

// Steps that are refused where an end follows, with the refusal and the field.
fn wrong_steps() -> [(Step, Refusal, u32); 11] {
    [
        (read(8, 0), Refusal::NoSuchRegister, 1),
        (read(7, CELLS), Refusal::NoSuchCell, 2),
        (write(CELLS, 8), Refusal::NoSuchRegister, 2),
        (write(CELLS, 7), Refusal::NoSuchCell, 1),
        (load(8), Refusal::NoSuchRegister, 1),
        (add(8, 8), Refusal::NoSuchRegister, 1),
        (add(7, 8), Refusal::NoSuchRegister, 2),
        (less(8, 0, 0), Refusal::NoSuchRegister, 1),
        (less(0, 8, 0), Refusal::NoSuchRegister, 2),
        (less(0, 1, 1), Refusal::NoLaterStep, 3),
        (less(0, 1, 3), Refusal::NoLaterStep, 3),
    ]
}

fn refuses_steps<S: Store>(checks: &mut Checks, intake: &mut Intake<S>) {
    for (step, refusal, field) in wrong_steps() {
        checks.that(
            "a wrong step",
            intake.admit(&[step, Step::End]) == fault(refusal, 1, field),
        );
    }
}

// No steps, one too many, a fault in the second step before one of the last, and a last step that goes on.
fn refuses_programs<S: Store>(checks: &mut Checks, intake: &mut Intake<S>) {
    checks.that(
        "no steps",
        intake.admit(&[]) == fault(Refusal::StepCount, 0, 0),
    );
    checks.that(
        "25 steps",
        intake.admit(&[Step::End; 25]) == fault(Refusal::StepCount, 0, 0),
    );
    checks.that(
        "a wrong second step",
        intake.admit(&[load(0), load(8), load(0)]) == fault(Refusal::NoSuchRegister, 2, 1),
    );
    checks.that(
        "a last step that goes on",
        intake.admit(&[Step::End, load(0)]) == fault(Refusal::LastStep, 2, 0),
    );
}

// 24 steps, of which the first names the last.
fn longest() -> [Step; 24] {
    let mut steps = [load(0); 24];
    steps[0] = less(0, 1, 24);
    steps[23] = Step::Wait;
    steps
}

fn fault(refusal: Refusal, step: u32, field: u32) -> Result<u32, Fault> {
    Err(Fault {
        refusal,
        step,
        field,
    })
}

fn read(register: u32, cell: u32) -> Step {
    Step::Read { register, cell }
}

fn write(cell: u32, register: u32) -> Step {
    Step::Write { cell, register }
}

fn load(register: u32) -> Step {
    Step::Load {
        register,
        number: 1,
    }
}

fn add(register: u32, other: u32) -> Step {
    Step::Add { register, other }
}

fn less(register: u32, other: u32, step: u32) -> Step {
    Step::JumpIfLess {
        register,
        other,
        step,
    }
}

// Calls with numbers that name nothing, beside one that names a cell and one that names a job.
#[test]
fn calls(rt: HostRuntime) {
    let mut checks = Checks::new();
    let mut words = [4; CELLS as usize];
    let mut intake = Intake::new(WordTable::new(&mut words), 1);
    checks.that("calls: admission", intake.admit(&[Step::End]) == Ok(1));
    let mut run = intake.seal();
    refuses_jobs(&mut checks, &mut run);
    for cell in [CELLS, 65_536, u32::MAX] {
        checks.that(
            "calls: no such cell",
            run.cell(cell) == Err(Refusal::NoSuchCell),
        );
    }
    checks.that(
        "calls: a cell and a job",
        run.cell(1) == Ok(4) && run.starts(1) == Ok(0),
    );
    drop(run.close());
    assert_eq!(rt; checks.failed(), None);
}

fn refuses_jobs<S: Store>(checks: &mut Checks, run: &mut Run<S>) {
    for job in [0, 2, 17, u32::MAX] {
        checks.that(
            "a turn of no job",
            matches!(run.turn(job), Err(Refusal::NoSuchJob)),
        );
        checks.that(
            "starts of no job",
            run.starts(job) == Err(Refusal::NoSuchJob),
        );
    }
}

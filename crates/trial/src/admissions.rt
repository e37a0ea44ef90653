use crate::bounds::{MOST_JOBS, MOST_STEPS, RUN};
use crate::programs::adder;
use crate::tally::Tally;
use model::{Fault, Refusal, Step};
use run::intake::Intake;
use store::Store;

// Steps that are not admitted, and why.
#[derive(Drop)]
struct Case {
    steps: [Step; 2],
    fault: Fault,
}

fn fault(refusal: Refusal, step: u32, field: u32) -> Fault {
    Fault {
        refusal,
        step,
        field,
    }
}

// One case for each test of a step, over a store of so many cells.
fn cases(cells: u32) -> [Case; 4] {
    let register = Step::Add {
        register: 7,
        other: 8,
    };
    let cell = Step::Read {
        register: 0,
        cell: cells,
    };
    let jump = Step::JumpIfLess {
        register: 0,
        other: 1,
        step: 1,
    };
    let last = Step::Load {
        register: 0,
        number: 1,
    };
    [
        Case {
            steps: [register, Step::End],
            fault: fault(Refusal::NoSuchRegister, 1, 2),
        },
        Case {
            steps: [cell, Step::End],
            fault: fault(Refusal::NoSuchCell, 1, 2),
        },
        Case {
            steps: [jump, Step::End],
            fault: fault(Refusal::NoLaterStep, 1, 3),
        },
        Case {
            steps: [Step::Wait, last],
            fault: fault(Refusal::LastStep, 2, 0),
        },
    ]
}

// Tries to admit, and counts what comes of it.
fn admit<S: Store>(
    intake: &mut Intake<S>,
    steps: &[Step],
    expected: Result<u32, Fault>,
    tally: &mut Tally,
) {
    let answer = intake.admit(steps);
    tally.expect(answer == expected);
    if let Err(fault) = answer {
        tally.refused(fault.refusal);
    }
}

// Tries what is not admitted, which uses no number.
fn refuse_all<S: Store>(intake: &mut Intake<S>, cells: u32, tally: &mut Tally) {
    let none = Err(fault(Refusal::StepCount, 0, 0));
    admit(intake, &[], none, tally);
    admit(intake, &[Step::End; MOST_STEPS + 1], none, tally);
    for case in &cases(cells) {
        admit(intake, &case.steps, Err(case.fault), tally);
    }
}

// Admits as many jobs as a run may have, and then one more.
fn admit_most<S: Store>(intake: &mut Intake<S>, tally: &mut Tally) {
    for job in 1..=MOST_JOBS as u32 {
        admit(intake, adder().steps(), Ok(job), tally);
    }
    let many = Err(fault(Refusal::TooManyJobs, 0, 0));
    admit(intake, adder().steps(), many, tally);
}

// Admissions to a run over the store.
pub(crate) fn admissions<S: Store>(store: S, tally: &mut Tally) -> S {
    let cells = store.count() as u32;
    let mut intake = Intake::new(store, RUN);
    refuse_all(&mut intake, cells, tally);
    admit_most(&mut intake, tally);
    tally.runs = tally.runs.wrapping_add(1);
    intake.seal().close()
}

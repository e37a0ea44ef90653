use crate::checks::Checks;
use crate::corrected::filed;
use crate::programs::adder;
use crate::turns::takes_right;
use model::{Party, Refusal};
use run::intake::Intake;
use run::run::Run;
use run::slip::{Slip, Unfiled};
use store::Store;
use store::word_table::WordTable;

// How many cells the stores of these tests have, which is more than a log has room for.
const CELLS: u32 = 26;

const ROOM: u32 = 24;

// The numbers of two runs.
pub(crate) const RUN: u32 = 5;

const OTHER: u32 = 6;

// The corrections of one run, which opens eight in all.
#[test]
fn in_one_run(rt: HostRuntime) {
    let mut checks = Checks::new();
    let mut words = [3; CELLS as usize];
    let mut intake = Intake::new(WordTable::new(&mut words), RUN);
    checks.that("one run: admission", intake.admit(&adder(0, 1)) == Ok(1));
    let mut run = intake.seal();
    logs_fill(&mut checks, &mut run);
    two_at_a_time(&mut checks, &mut run);
    waits_for_the_right(&mut checks, &mut run);
    for number in 5..=8 {
        opens(&mut checks, &mut run, number);
    }
    refuses_one_more(&mut checks, &mut run);
    drop(run.close());
    assert_eq!(rt; checks.failed(), None);
}

// Correction 1 reads and writes as many cells as its logs have room for, and one more.
fn logs_fill<S: Store>(checks: &mut Checks, run: &mut Run<S>) {
    let Ok(slip) = run.open_correction() else {
        return checks.that("full logs: opening", false);
    };
    checks.that(
        "full logs: numbers of the slip",
        slip.run() == RUN && slip.correction() == 1,
    );
    checks.that(
        "full logs: reading beyond the cells",
        run.read(&slip, CELLS) == Err(Refusal::NoSuchCell),
    );
    checks.that(
        "full logs: writing beyond the cells",
        run.write(&slip, CELLS, 1) == Err(Refusal::NoSuchCell),
    );
    reads_all(checks, run, &slip);
    writes_all(checks, run, &slip);
    checks.that("full logs: the filing", filed(run, slip) == Ok(()));
    checks.that(
        "full logs: the cells",
        run.cell(0) == Ok(3) && run.cell(1) == Ok(2) && run.cell(ROOM) == Ok(ROOM),
    );
    checks.that(
        "full logs: takings and settings",
        run.takings() == 1 && run.settings() == ROOM,
    );
}

// Reads each cell that there is room for, and no other.
fn reads_all<S: Store>(checks: &mut Checks, run: &mut Run<S>, slip: &Slip) {
    for cell in 0..ROOM {
        checks.that("full logs: a reading", run.read(slip, cell) == Ok(3));
    }
    checks.that(
        "full logs: a 25th reading",
        run.read(slip, ROOM) == Err(Refusal::LogFull),
    );
    checks.that("full logs: a cell read again", run.read(slip, 0) == Ok(3));
}

// Writes its own number for each cell but the first, then another for one of them.
fn writes_all<S: Store>(checks: &mut Checks, run: &mut Run<S>, slip: &Slip) {
    for cell in 1..=ROOM {
        checks.that(
            "full logs: a writing",
            run.write(slip, cell, cell) == Ok(()),
        );
    }
    checks.that(
        "full logs: a 25th writing",
        run.write(slip, 0, 1) == Err(Refusal::LogFull),
    );
    checks.that(
        "full logs: a cell written again",
        run.write(slip, 1, 2) == Ok(()),
    );
    checks.that(
        "full logs: what was written is read",
        run.read(slip, 1) == Ok(2) && run.read(slip, ROOM) == Ok(ROOM),
    );
}

// Corrections 2 and 3 are open at a time. The one that has read what the other sets is refused.
fn two_at_a_time<S: Store>(checks: &mut Checks, run: &mut Run<S>) {
    let Ok(one) = run.open_correction() else {
        return checks.that("two: opening one", false);
    };
    let Ok(other) = run.open_correction() else {
        let _ = run.withdraw(one);
        return checks.that("two: opening the other", false);
    };
    checks.that(
        "two: writing and reading",
        run.write(&one, 2, 7) == Ok(()) && run.read(&other, 2) == Ok(2),
    );
    checks.that("two: the own writing is read", run.read(&one, 2) == Ok(7));
    checks.that("two: filing one", filed(run, one) == Ok(()));
    checks.that(
        "two: filing the other",
        filed(run, other) == Err(Refusal::Changed { cell: 2 }),
    );
    checks.that(
        "two: the order",
        run.entry(2) == Some(Party::Correction(2)) && run.entry(3).is_none(),
    );
}

// Correction 4 is refused while the job holds the right, and comes back as it was.
fn waits_for_the_right<S: Store>(checks: &mut Checks, run: &mut Run<S>) {
    let Ok(slip) = run.open_correction() else {
        return checks.that("waiting: opening", false);
    };
    checks.that("waiting: the writing", run.write(&slip, 3, 9) == Ok(()));
    checks.that("waiting: the right is held", takes_right(run, 1));
    let Some(slip) = refused_filing(run, slip, Refusal::RightHeld) else {
        return checks.that("waiting: the filing is refused", false);
    };
    run.settle();
    checks.that(
        "waiting: the slip comes back as it was",
        slip.correction() == 4 && run.read(&slip, 3) == Ok(9),
    );
    checks.that(
        "waiting: filed once the right is free",
        filed(run, slip) == Ok(()) && run.cell(3) == Ok(9),
    );
}

// The slip that a filing gives back that is refused for this.
pub(crate) fn refused_filing<S: Store>(run: &mut Run<S>, slip: Slip, why: Refusal) -> Option<Slip> {
    match run.file(slip) {
        Ok(()) => None,
        Err(Unfiled { slip, refusal }) if refusal == why => Some(slip),
        Err(Unfiled { slip, refusal: _ }) => {
            let _ = run.withdraw(slip);
            None
        }
    }
}

// Opens the next correction, and withdraws it.
fn opens<S: Store>(checks: &mut Checks, run: &mut Run<S>, number: u32) {
    let Ok(slip) = run.open_correction() else {
        return checks.that("the rest: opening", false);
    };
    checks.that("the rest: numbers", slip.correction() == number);
    checks.that("the rest: a writing", run.write(&slip, 4, 1) == Ok(()));
    checks.that("the rest: withdrawing", run.withdraw(slip) == Ok(()));
}

fn refuses_one_more<S: Store>(checks: &mut Checks, run: &mut Run<S>) {
    match run.open_correction() {
        Ok(slip) => {
            let _ = run.withdraw(slip);
            checks.that("a ninth: opened", false);
        }
        Err(refusal) => checks.that(
            "a ninth: refused otherwise",
            refusal == Refusal::TooManyCorrections,
        ),
    }
}

// A slip is of use in its own run alone, also where the other run has an open correction of that number. One whose run
// is closed is discarded.
#[test]
fn in_two_runs(rt: HostRuntime) {
    let mut checks = Checks::new();
    let mut words = [3; CELLS as usize];
    let mut others = [4; CELLS as usize];
    let mut run = Intake::new(WordTable::new(&mut words), RUN).seal();
    let mut other = Intake::new(WordTable::new(&mut others), OTHER).seal();
    let slip = run.open_correction().expect(&rt, "first");
    let own = other.open_correction().expect(&rt, "first of the other");
    refuses_slip(&mut checks, &mut other, slip);
    checks.that(
        "two runs: withdrawing the other's own",
        other.withdraw(own) == Ok(()),
    );
    let slip = run.open_correction().expect(&rt, "second");
    checks.that("two runs: a writing", run.write(&slip, 0, 8) == Ok(()));
    let table = run.close();
    let numbers = slip.discard();
    checks.that(
        "two runs: what the discarded slip bore",
        numbers.run == RUN && numbers.correction == 2,
    );
    checks.that("two runs: nothing was set", table.get(0) == Some(3));
    drop(table);
    drop(other.close());
    assert_eq!(rt; checks.failed(), None);
}

// The slip of another run, which the withdrawal spends.
pub(crate) fn refuses_slip<S: Store>(checks: &mut Checks, run: &mut Run<S>, slip: Slip) {
    checks.that(
        "another run's slip: reading",
        run.read(&slip, 0) == Err(Refusal::NotOpen),
    );
    checks.that(
        "another run's slip: writing",
        run.write(&slip, 0, 1) == Err(Refusal::NotOpen),
    );
    let Some(slip) = refused_filing(run, slip, Refusal::NotOpen) else {
        return checks.that("another run's slip: filing", false);
    };
    checks.that("another run's slip: its number", slip.run() == RUN);
    checks.that(
        "another run's slip: withdrawing",
        run.withdraw(slip) == Err(Refusal::NotOpen),
    );
}

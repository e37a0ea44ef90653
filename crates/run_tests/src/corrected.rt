use crate::checks::Checks;
use crate::programs::adder;
use crate::turns::{settled_turns, turns};
use model::{Applied, Party, Refusal, Rule};
use run::intake::Intake;
use run::run::Run;
use run::slip::{Slip, Unfiled};
use store::Store;

// A run with a job that adds 1 to cell 0.
fn adding<S: Store>(checks: &mut Checks, store: S) -> Run<S> {
    let mut intake = Intake::new(store, 4);
    checks.that("adding: admission", intake.admit(&adder(0, 1)) == Ok(1));
    intake.seal()
}

// Files, and withdraws what comes back.
pub(crate) fn filed<S: Store>(run: &mut Run<S>, slip: Slip) -> Result<(), Refusal> {
    match run.file(slip) {
        Ok(()) => Ok(()),
        Err(Unfiled { slip, refusal }) => {
            let _ = run.withdraw(slip);
            Err(refusal)
        }
    }
}

// A correction reads 7, the job makes it 8, and filing names the cell.
pub(crate) fn outdated<S: Store>(checks: &mut Checks, store: S) -> S {
    let mut run = adding(checks, store);
    let Ok(slip) = run.open_correction() else {
        checks.that("outdated: opening", false);
        return run.close();
    };
    checks.that("outdated: the reading", run.read(&slip, 0) == Ok(7));
    checks.that(
        "outdated: the job commits",
        turns(&mut run, 1, 11) == 10 && run.entry(1) == Some(Party::Job(1)),
    );
    checks.that(
        "outdated: the filing is refused",
        filed(&mut run, slip) == Err(Refusal::Changed { cell: 0 }),
    );
    checks.that(
        "outdated: cell and starts",
        run.cell(0) == Ok(8) && run.starts(1) == Ok(1),
    );
    checks.that(
        "outdated: nothing else was set",
        run.entry(2).is_none() && run.takings() == 1 && run.settings() == 1,
    );
    run.close()
}

// A correction sets the cell to 5 after six turns of the job, which loses its mark and starts again.
pub(crate) fn overtaken<S: Store>(checks: &mut Checks, store: S) -> S {
    let mut run = adding(checks, store);
    let Ok(slip) = run.open_correction() else {
        checks.that("overtaken: opening", false);
        return run.close();
    };
    checks.that(
        "overtaken: the writing",
        run.write(&slip, 0, 5) == Ok(()) && run.cell(0) == Ok(7),
    );
    checks.that("overtaken: the job validates", turns(&mut run, 1, 6) == 6);
    checks.that(
        "overtaken: the filing",
        filed(&mut run, slip) == Ok(()) && run.cell(0) == Ok(5),
    );
    checks.that(
        "overtaken: the mark is gone",
        matches!(run.turn(1), Ok(Some(Applied { rule: Rule::V4, .. }))),
    );
    checks.that(
        "overtaken: the job starts again",
        settled_turns(&mut run, 1) == 13 && run.starts(1) == Ok(2),
    );
    checks.that(
        "overtaken: what is left",
        run.cell(0) == Ok(6) && run.takings() == 2 && run.settings() == 2,
    );
    checks.that(
        "overtaken: the order",
        run.entry(1) == Some(Party::Correction(1)) && run.entry(2) == Some(Party::Job(1)),
    );
    run.close()
}

// The job has read 7, a correction sets 7 again, and the job commits with one start.
pub(crate) fn set_again<S: Store>(checks: &mut Checks, store: S) -> S {
    let mut run = adding(checks, store);
    checks.that("set again: the job reads", turns(&mut run, 1, 2) == 2);
    let Ok(slip) = run.open_correction() else {
        checks.that("set again: opening", false);
        return run.close();
    };
    checks.that("set again: the writing", run.write(&slip, 0, 7) == Ok(()));
    checks.that("set again: the filing", filed(&mut run, slip) == Ok(()));
    checks.that(
        "set again: the job commits",
        settled_turns(&mut run, 1) == 8 && run.entry(2) == Some(Party::Job(1)),
    );
    checks.that(
        "set again: cell and starts",
        run.cell(0) == Ok(8) && run.starts(1) == Ok(1),
    );
    run.close()
}

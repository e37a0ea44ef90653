use crate::checks::Checks;
use crate::programs::{adder, mover};
use crate::turns::{settled_turns, takes_right};
use model::{Applied, Party, Rule};
use run::intake::Intake;
use run::run::Run;
use store::Store;

// How many adders a run has.
pub(crate) const ADDERS: u32 = 16;

// More rounds than any run here needs.
const MOST_ROUNDS: u32 = 2000;

// Job j adds j to cell j % 3, so that the jobs get in each other's way. They all commit, some only after a restart, and
// leave the sums.
pub(crate) fn sums<S: Store>(checks: &mut Checks, store: S) -> S {
    let mut intake = Intake::new(store, 1);
    for job in 1..=ADDERS {
        checks.that(
            "sums: admission",
            intake.admit(&adder(job % 3, job)) == Ok(job),
        );
    }
    let mut run = intake.seal();
    rounds(&mut run);
    checks.that(
        "sums: no place before the first or after the last",
        run.entry(0).is_none() && run.entry(ADDERS + 1).is_none(),
    );
    checks.that(
        "sums: all commit",
        (1..=ADDERS).all(|job| stands(&run, job)),
    );
    checks.that("sums: some start again", starts(&run) > ADDERS);
    checks.that(
        "sums: takings and settings",
        run.takings() == ADDERS && run.settings() == ADDERS,
    );
    let store = run.close();
    checks.that(
        "sums: the cells",
        store.get(0) == Some(45) && store.get(1) == Some(51) && store.get(2) == Some(40),
    );
    store
}

// Gives every job a turn, round after round, until a round has no rule.
fn rounds<S: Store>(run: &mut Run<S>) {
    for _ in 0..MOST_ROUNDS {
        if !round(run) {
            return;
        }
    }
}

fn round<S: Store>(run: &mut Run<S>) -> bool {
    (1..=ADDERS).fold(
        false,
        |applied, job| matches!(run.turn(job), Ok(Some(_))) || applied,
    )
}

fn stands<S: Store>(run: &Run<S>, job: u32) -> bool {
    (1..=ADDERS).any(|place| run.entry(place) == Some(Party::Job(job)))
}

// How many starts there were.
fn starts<S: Store>(run: &Run<S>) -> u32 {
    (1..=ADDERS).fold(
        0u32,
        |starts, job| starts.saturating_add(run.starts(job).unwrap_or(0)),
    )
}

// A mover waits for an adder: it rests while its cell is 0, wakes once the adder has set it, and moves the number.
pub(crate) fn waits<S: Store>(checks: &mut Checks, store: S) -> S {
    let mut intake = Intake::new(store, 2);
    checks.that(
        "waits: admission",
        intake.admit(&mover(0, 1)) == Ok(1) && intake.admit(&adder(0, 5)) == Ok(2),
    );
    let mut run = intake.seal();
    checks.that(
        "waits: the mover rests",
        settled_turns(&mut run, 1) == 3 && run.entry(1).is_none(),
    );
    checks.that(
        "waits: the adder commits",
        settled_turns(&mut run, 2) == 10 && run.entry(1) == Some(Party::Job(2)),
    );
    let woke = Applied {
        rule: Rule::Rt,
        cell: Some(0),
    };
    checks.that("waits: the mover wakes", run.turn(1) == Ok(Some(woke)));
    settled_turns(&mut run, 1);
    checks.that(
        "waits: the number is moved",
        run.cell(0) == Ok(0) && run.cell(1) == Ok(5) && run.starts(1) == Ok(2),
    );
    run.close()
}

// A job is stopped as soon as it has the right. Settling carries its commit to the end, and closing too.
pub(crate) fn settles<S: Store>(checks: &mut Checks, store: S) -> S {
    let mut intake = Intake::new(store, 3);
    checks.that(
        "settles: admission",
        intake.admit(&adder(2, 9)) == Ok(1) && intake.admit(&adder(1, 8)) == Ok(2),
    );
    let mut run = intake.seal();
    checks.that(
        "settles: the right is held",
        takes_right(&mut run, 1) && run.settings() == 0 && run.entry(1).is_none(),
    );
    run.settle();
    checks.that(
        "settles: settling commits",
        run.cell(2) == Ok(9) && run.settings() == 1 && run.entry(1) == Some(Party::Job(1)),
    );
    checks.that(
        "settles: the right is held again",
        takes_right(&mut run, 2) && run.cell(1) == Ok(0),
    );
    let store = run.close();
    checks.that("settles: closing commits", store.get(1) == Some(8));
    store
}

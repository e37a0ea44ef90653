use crate::checks::Checks;
use crate::corrected::filed;
use crate::programs::adder;
use crate::slips::{self, refused_filing, refuses_slip};
use crate::turns::{settled_turns, takes_right, turns};
use change_list::ChangeList;
use model::Refusal;
use recorder::{Log, Recorder};
use run::intake::Intake;
use run::run::Run;
use run::slip::Slip;
use store::Store;
use store::change::Change;
use store::word_table::WordTable;

// How many cells the stores of these tests have, which is one more than a log has room for, and the first that they have
// not.
const CELLS: usize = 25;

const BEYOND: u32 = CELLS as u32;

// How many jobs there are: job n adds 1 to cell n - 1.
const JOBS: u32 = 3;

// How many corrections a run opens, and how many are open or closed before the last are opened here.
const CORRECTIONS: u32 = 8;

const OPENED: u32 = 3;

// The number of these runs, whose cells hold 0 at first.
const RUN: u32 = 8;

// What they set, in order: job 1 and a correction cell 0 to the same number, the correction two more cells, and jobs 2
// and 3 one each.
const TOLD: [(u32, u32); 6] = [(0, 1), (0, 1), (1, 5), (2, 9), (1, 6), (2, 10)];

// Each c2 and each filing sets its cells once, in order, also to the number that they hold; no other call sets any.
#[test]
fn over_words(rt: HostRuntime) {
    let mut checks = Checks::new();
    let mut words = [0; CELLS];
    let Recorder { inner: _, log } = recorded(&mut checks, WordTable::new(&mut words));
    set_as_told(&mut checks, &log);
    assert_eq!(rt; checks.failed(), None);
}

#[test]
fn over_records(rt: HostRuntime) {
    let mut checks = Checks::new();
    let mut records = [Change { cell: 0, number: 7 }; CELLS + 1];
    let Recorder { inner: _, log } = recorded(&mut checks, ChangeList::new(&mut records));
    set_as_told(&mut checks, &log);
    assert_eq!(rt; checks.failed(), None);
}

fn set_as_told(checks: &mut Checks, log: &Log) {
    let same = log
        .sets
        .iter()
        .zip(TOLD)
        .all(|(set, (cell, number))| *set == Change { cell, number });
    checks.that("the sets", same);
    checks.that(
        "how many sets",
        log.sets.len() == TOLD.len() && log.missed == 0,
    );
}

// A run with every kind of call, of which few set a cell, and then one that is closed as it was sealed.
fn recorded<S: Store>(checks: &mut Checks, store: S) -> Recorder<S> {
    let mut intake = Intake::new(Recorder::new(store), RUN);
    for job in 0..JOBS {
        checks.that("admission", intake.admit(&adder(job, 1)) == Ok(job + 1));
    }
    checks.that("a refused admission", intake.admit(&[]).is_err());
    let mut run = intake.seal();
    for job in [0, JOBS + 1] {
        checks.that("a refused turn", run.turn(job) == Err(Refusal::NoSuchJob));
    }
    foreign(checks, &mut run);
    withdrawn(checks, &mut run);
    refused(checks, &mut run);
    sets_three(checks, &mut run);
    checks.that("a job alone", settled_turns(&mut run, 2) == 10);
    ninth(checks, &mut run);
    checks.that("the right is held at last", takes_right(&mut run, 3));
    Intake::new(run.close(), RUN).seal().close()
}

// Each call with the slip of another run.
fn foreign<S: Store>(checks: &mut Checks, run: &mut Run<S>) {
    let mut words = [4; 1];
    let mut other = Intake::new(WordTable::new(&mut words), slips::RUN).seal();
    match other.open_correction() {
        Ok(slip) => refuses_slip(checks, run, slip),
        Err(_) => checks.that("foreign: opening", false),
    }
    drop(other.close());
}

// A correction that reads and writes as many cells as its logs have room for, one more and one beyond the count, and is
// withdrawn.
fn withdrawn<S: Store>(checks: &mut Checks, run: &mut Run<S>) {
    let Ok(slip) = run.open_correction() else {
        return checks.that("withdrawn: opening", false);
    };
    for cell in 0..BEYOND - 1 {
        let _ = run.read(&slip, cell);
        let _ = run.write(&slip, cell, 4);
    }
    checks.that(
        "withdrawn: a 25th cell",
        run.read(&slip, BEYOND - 1) == Err(Refusal::LogFull)
            && run.write(&slip, BEYOND - 1, 4) == Err(Refusal::LogFull),
    );
    checks.that(
        "withdrawn: what is beyond",
        run.read(&slip, BEYOND).is_err() && run.write(&slip, BEYOND, 4).is_err(),
    );
    checks.that("withdrawn: withdrawing", run.withdraw(slip) == Ok(()));
}

// A correction that is refused while job 1 holds the right, and once it has set what the correction read. Job 3 has a
// mark that job 1 removes.
fn refused<S: Store>(checks: &mut Checks, run: &mut Run<S>) {
    let Ok(slip) = run.open_correction() else {
        return checks.that("refused: opening", false);
    };
    checks.that("refused: the reading", run.read(&slip, 0) == Ok(0));
    checks.that("refused: the writing", run.write(&slip, 0, 1) == Ok(()));
    checks.that("refused: a mark", turns(run, 3, 6) == 6);
    checks.that("refused: the right is held", takes_right(run, 1));
    let Some(slip) = refused_filing(run, slip, Refusal::RightHeld) else {
        return checks.that("refused: filing meanwhile", false);
    };
    run.settle();
    run.settle();
    checks.that(
        "refused: filing after",
        filed(run, slip) == Err(Refusal::Changed { cell: 0 }),
    );
}

// A correction that writes cell 0 as it is, and two others, not in their order.
fn sets_three<S: Store>(checks: &mut Checks, run: &mut Run<S>) {
    let Ok(slip) = run.open_correction() else {
        return checks.that("three: opening", false);
    };
    for (cell, number) in [(2, 9), (1, 4), (0, 1), (1, 5)] {
        checks.that("three: a writing", run.write(&slip, cell, number) == Ok(()));
    }
    checks.that("three: filing", filed(run, slip) == Ok(()));
}

// The corrections that are left, all withdrawn, and one too many.
fn ninth<S: Store>(checks: &mut Checks, run: &mut Run<S>) {
    for _ in OPENED..CORRECTIONS {
        match run.open_correction() {
            Ok(slip) => writes_and_withdraws(checks, run, slip),
            Err(_) => checks.that("ninth: opening", false),
        }
    }
    match run.open_correction() {
        Ok(slip) => {
            let _ = slip.discard();
            checks.that("ninth: opened", false);
        }
        Err(refusal) => checks.that("ninth", refusal == Refusal::TooManyCorrections),
    }
}

fn writes_and_withdraws<S: Store>(checks: &mut Checks, run: &mut Run<S>, slip: Slip) {
    let _ = run.write(&slip, 2, 3);
    checks.that("ninth: withdrawing", run.withdraw(slip) == Ok(()));
}

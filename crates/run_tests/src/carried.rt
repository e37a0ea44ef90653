use crate::checks::Checks;
use crate::programs::adder;
use model::{Applied, Refusal, Rule};
use recorder::{Log, Recorder};
use run::carrying::{NoRoom, carry_out};
use run::intake::Intake;
use run::requests::{Answer, Request};
use run::run::Run;
use run::slip::SlipNumbers;
use store::Store;
use store::change::Change;
use store::word_table::WordTable;

// The number of these runs, and what stands for the first slip of one, for its second, and for the first of another run.
const RUN: u32 = 3;

const SLIP: SlipNumbers = SlipNumbers {
    run: RUN,
    correction: 1,
};

const NEXT: SlipNumbers = SlipNumbers {
    run: RUN,
    correction: 2,
};

const OTHER: SlipNumbers = SlipNumbers {
    run: 4,
    correction: 1,
};

// Each kind of call, and all but opening and settling also refused; and what they answer over two cells of 7 with a job that
// adds 1 to cell 0.
const REQUESTS: [Request; 14] = [
    Request::Open,
    Request::Read {
        slip: SLIP,
        cell: 0,
    },
    Request::Read {
        slip: OTHER,
        cell: 0,
    },
    Request::Write {
        slip: SLIP,
        cell: 1,
        number: 9,
    },
    Request::Write {
        slip: SLIP,
        cell: 2,
        number: 9,
    },
    Request::Turn { job: 0 },
    Request::Turn { job: 1 },
    Request::File { slip: SLIP },
    Request::File { slip: SLIP },
    Request::Withdraw { slip: SLIP },
    Request::Turn { job: 1 },
    Request::Settle,
    Request::Open,
    Request::Withdraw { slip: NEXT },
];

const ANSWERS: [Answer; 14] = [
    Answer::OfOpening(Ok(SLIP)),
    Answer::OfReading(Ok(7)),
    Answer::OfReading(Err(Refusal::NotOpen)),
    Answer::OfAcceptance(Ok(())),
    Answer::OfAcceptance(Err(Refusal::NoSuchCell)),
    Answer::OfTurn(Err(Refusal::NoSuchJob)),
    Answer::OfTurn(Ok(Some(Applied {
        rule: Rule::S3,
        cell: None,
    }))),
    Answer::OfAcceptance(Ok(())),
    Answer::OfAcceptance(Err(Refusal::NotOpen)),
    Answer::OfAcceptance(Err(Refusal::NotOpen)),
    Answer::OfTurn(Ok(Some(Applied {
        rule: Rule::R3,
        cell: Some(0),
    }))),
    Answer::OfSettling,
    Answer::OfOpening(Ok(NEXT)),
    Answer::OfAcceptance(Ok(())),
];

// What stands in a buffer before, and beyond the answers.
const BEFORE: Answer = Answer::OfReading(Ok(5));

fn intake_over<S: Store>(checks: &mut Checks, store: S) -> Intake<S> {
    let mut intake = Intake::new(store, RUN);
    checks.that("admission", intake.admit(&adder(0, 1)) == Ok(1));
    intake
}

// A buffer with a place more than there are calls keeps what stood there.
#[test]
fn in_a_long_buffer(rt: HostRuntime) {
    let mut checks = Checks::new();
    let mut words = [7; 2];
    let intake = intake_over(&mut checks, Recorder::new(WordTable::new(&mut words)));
    let mut answers = [BEFORE; REQUESTS.len() + 1];
    let Recorder { inner: _, log } = match carry_out(intake, &REQUESTS, &mut answers) {
        Ok(run) => run.close(),
        Err(NoRoom { intake }) => {
            checks.that("long: carried out", false);
            intake.seal().close()
        }
    };
    let same = answers.iter().zip(ANSWERS).all(|(one, told)| *one == told);
    checks.that("long: the answers", same);
    checks.that("long: beyond", answers.last() == Some(&BEFORE));
    one_set(&mut checks, &log);
    assert_eq!(rt; checks.failed(), None);
}

// The filing is all that set a cell.
fn one_set(checks: &mut Checks, log: &Log) {
    let told = Change { cell: 1, number: 9 };
    checks.that(
        "long: the sets",
        log.sets.len() == 1 && log.sets.first() == Some(&told),
    );
}

// A buffer with a place less is refused: the intake comes back and can still be used.
#[test]
fn in_a_short_buffer(rt: HostRuntime) {
    let mut checks = Checks::new();
    let mut words = [7; 2];
    let intake = intake_over(&mut checks, WordTable::new(&mut words));
    let mut answers = [BEFORE; REQUESTS.len() - 1];
    let run = match carry_out(intake, &REQUESTS, &mut answers) {
        Ok(run) => {
            checks.that("short: refused", false);
            run
        }
        Err(NoRoom { mut intake }) => {
            checks.that("short: a second job", intake.admit(&adder(1, 1)) == Ok(2));
            intake.seal()
        }
    };
    check_begun(&mut checks, &run);
    drop(run.close());
    let same = answers.iter().all(|answer| *answer == BEFORE);
    checks.that("short: the buffer", same);
    assert_eq!(rt; checks.failed(), None);
}

fn check_begun<S: Store>(checks: &mut Checks, run: &Run<S>) {
    checks.that(
        "short: nothing was done",
        run.jobs() == 2 && run.commits() == 0 && run.takings() == 0 && run.starts(1) == Ok(0),
    );
}

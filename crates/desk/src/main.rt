// A desk corrects a cell by hand while a job adds to it, and prints what happens.
#![tactic(auto)]

use model::{Applied, Party, Refusal, Step};
use run::carrying::{NoRoom, carry_out};
use run::intake::Intake;
use run::requests::{Answer, Request};
use run::run::Run;
use run::slip::{Slip, SlipNumbers, Unfiled};
use std::io;
use store::Store;
use store::word_table::WordTable;

// The number of this run.
const RUN: u32 = 1;

// The only cell of this run, what it holds at first, and what the desk wants it to hold.
const CELL: u32 = 0;

const NUMBER: u32 = 7;

const CORRECTED: u32 = 20;

// How many turns the job has before a correction is filed, and more than it can use.
const FEW_TURNS: u32 = 3;

const MOST_TURNS: u32 = 100;

// Reads the cell, adds one, writes it back and ends.
const PROGRAM: [Step; 5] = [
    Step::Read {
        register: 0,
        cell: CELL,
    },
    Step::Load {
        register: 1,
        number: 1,
    },
    Step::Add {
        register: 0,
        other: 1,
    },
    Step::Write {
        cell: CELL,
        register: 0,
    },
    Step::End,
];

// The number of a second run, which makes a list of calls by numbers alone, and what stands for its first slip.
const SECOND: u32 = 2;

const SLIP: SlipNumbers = SlipNumbers {
    run: SECOND,
    correction: 1,
};

// A correction that is filed once: another run's slip does not withdraw it, and a second filing finds it closed.
const CALLS: [Request; 8] = [
    Request::Open,
    Request::Read {
        slip: SLIP,
        cell: CELL,
    },
    Request::Write {
        slip: SLIP,
        cell: CELL,
        number: NUMBER,
    },
    Request::Withdraw {
        slip: SlipNumbers {
            run: RUN,
            correction: 1,
        },
    },
    Request::File { slip: SLIP },
    Request::File { slip: SLIP },
    Request::Turn { job: 1 },
    Request::Settle,
];

// Gives the job at most so many turns, and prints the rule of each.
fn play<S: Store>(rt: &impl Print, run: &mut Run<S>, job: u32, turns: u32) -> io::Result<()> {
    for _ in 0..turns {
        let Ok(Some(Applied { rule, .. })) = run.turn(job) else {
            break;
        };
        println!(rt; "job {job}: {rule}")?;
    }
    Ok(())
}

fn refused(rt: &impl Print, correction: u32, refusal: Refusal) -> io::Result<()> {
    let number = u32::from(refusal);
    match refusal {
        Refusal::Changed { cell } => println!(rt;
            "correction {correction}: refused by {number}, cell {cell} has changed"
        ),
        _ => println!(rt; "correction {correction}: refused by {number}"),
    }
}

fn opened(rt: &impl Print, slip: &Slip) -> io::Result<()> {
    let run = slip.run();
    let correction = slip.correction();
    println!(rt; "correction {correction}: opened in run {run}")
}

fn read<S: Store>(rt: &impl Print, run: &mut Run<S>, slip: &Slip) -> io::Result<()> {
    let correction = slip.correction();
    match run.read(slip, CELL) {
        Ok(number) => println!(rt; "correction {correction}: reads {number} in cell {CELL}"),
        Err(refusal) => refused(rt, correction, refusal),
    }
}

fn write<S: Store>(rt: &impl Print, run: &mut Run<S>, slip: &Slip) -> io::Result<()> {
    let correction = slip.correction();
    match run.write(slip, CELL, CORRECTED) {
        Ok(()) => println!(rt; "correction {correction}: writes {CORRECTED} for cell {CELL}"),
        Err(refusal) => refused(rt, correction, refusal),
    }
}

fn withdraw<S: Store>(rt: &impl Print, run: &mut Run<S>, slip: Slip) -> io::Result<()> {
    let correction = slip.correction();
    match run.withdraw(slip) {
        Ok(()) => println!(rt; "correction {correction}: withdrawn"),
        Err(refusal) => refused(rt, correction, refusal),
    }
}

// Files a correction. One that is refused is read once more, which tells what it has logged, and is then withdrawn.
fn file<S: Store>(rt: &impl Print, run: &mut Run<S>, slip: Slip) -> io::Result<()> {
    let correction = slip.correction();
    match run.file(slip) {
        Ok(()) => println!(rt; "correction {correction}: filed"),
        Err(Unfiled { slip, refusal }) => {
            let told = refused(rt, correction, refusal);
            let again = read(rt, run, &slip);
            let withdrawn = withdraw(rt, run, slip);
            told.and(again).and(withdrawn)
        }
    }
}

// The job commits between the reading and the filing.
fn correct_too_late<S: Store>(rt: &impl Print, run: &mut Run<S>, job: u32) -> io::Result<()> {
    let Ok(slip) = run.open_correction() else {
        return Ok(());
    };
    let told = opened(rt, &slip);
    let looked = read(rt, run, &slip);
    let played = play(rt, run, job, MOST_TURNS);
    let filed = file(rt, run, slip);
    told.and(looked).and(played).and(filed)
}

// A new correction reads the cell anew. The other job is in the midst of its work, and starts again.
fn correct_in_time<S: Store>(rt: &impl Print, run: &mut Run<S>, job: u32) -> io::Result<()> {
    let Ok(slip) = run.open_correction() else {
        return Ok(());
    };
    let told = opened(rt, &slip);
    let looked = read(rt, run, &slip);
    let wrote = write(rt, run, &slip);
    let played = play(rt, run, job, FEW_TURNS);
    let filed = file(rt, run, slip);
    told.and(looked).and(wrote).and(played).and(filed)
}

// A correction that is withdrawn.
fn open_and_withdraw<S: Store>(rt: &impl Print, run: &mut Run<S>) -> io::Result<()> {
    let Ok(slip) = run.open_correction() else {
        return Ok(());
    };
    let told = opened(rt, &slip);
    let wrote = write(rt, run, &slip);
    let withdrawn = withdraw(rt, run, slip);
    told.and(wrote).and(withdrawn)
}

fn print_order<S: Store>(rt: &impl Print, run: &Run<S>) -> io::Result<()> {
    for place in 1..=run.commits() as u32 {
        match run.entry(place) {
            Some(Party::Job(job)) => println!(rt; "place {place}: job {job}")?,
            Some(Party::Correction(correction)) => println!(rt;
                "place {place}: correction {correction}"
            )?,
            None => {}
        }
    }
    Ok(())
}

fn print_run<S: Store>(rt: &impl Print, run: &mut Run<S>, jobs: [u32; 2]) -> io::Result<()> {
    let [first, second] = jobs;
    correct_too_late(rt, run, first)?;
    correct_in_time(rt, run, second)?;
    open_and_withdraw(rt, run)?;
    play(rt, run, second, MOST_TURNS)?;
    print_order(rt, run)
}

fn print_answer(rt: &impl Print, answer: Answer) -> io::Result<()> {
    match answer {
        Answer::OfTurn(Ok(Some(Applied { rule, .. }))) => println!(rt; "a turn by {rule}"),
        Answer::OfTurn(Ok(None)) => println!(rt; "a turn by no rule"),
        Answer::OfSettling => println!(rt; "settled"),
        Answer::OfOpening(Ok(slip)) => println!(rt; "correction {}: opened", slip.correction),
        Answer::OfReading(Ok(number)) => println!(rt; "read {number}"),
        Answer::OfAcceptance(Ok(())) => println!(rt; "accepted"),
        Answer::OfTurn(Err(refusal))
        | Answer::OfOpening(Err(refusal))
        | Answer::OfReading(Err(refusal))
        | Answer::OfAcceptance(Err(refusal)) => println!(rt; "refused by {}", u32::from(refusal)),
    }
}

// The second run; gives the store back.
fn carry_calls<S: Store>(rt: &impl Print, store: S) -> (S, io::Result<()>) {
    let mut intake = Intake::new(store, SECOND);
    let _ = intake.admit(&PROGRAM);
    let mut answers = [Answer::OfSettling; CALLS.len()];
    match carry_out(intake, &CALLS, &mut answers) {
        Ok(run) => {
            let told = answers
                .iter()
                .try_for_each(|answer| print_answer(rt, *answer));
            (run.close(), told)
        }
        Err(NoRoom { intake }) => (
            intake.seal().close(),
            rt.println("there is no room for the answers"),
        ),
    }
}

// The first run; gives the store back.
fn run_over<S: Store>(rt: &impl Print, store: S) -> (S, io::Result<()>) {
    let mut intake = Intake::new(store, RUN);
    let jobs = [intake.admit(&PROGRAM), intake.admit(&PROGRAM)];
    let mut run = intake.seal();
    let printed = match jobs {
        [Ok(first), Ok(second)] => print_run(rt, &mut run, [first, second]),
        _ => rt.println("a job is not admitted"),
    };
    (run.close(), printed)
}

fn main(rt: HostRuntime) -> io::Result<()> {
    let mut words = [NUMBER];
    let (table, printed) = run_over(&rt, WordTable::new(&mut words));
    printed?;
    let number = table.get(CELL).unwrap_or(0);
    println!(&rt; "cell {CELL}: {number}")?;
    let (table, printed) = carry_calls(&rt, table);
    printed?;
    let number = table.get(CELL).unwrap_or(0);
    println!(&rt; "cell {CELL}: {number}")
}

use crate::programs::{adder, copier, doubler, rereader, swapper, waiter};
use crate::tally::Tally;
use crate::trial::Trial;
use job::program::Program;
use run::slip::Slip;
use store::Store;

// What the two cells of these runs hold first.
const CELLS: [u32; 2] = [7, 5];

// Which job has each of the first turns, told by one number: its digits to the base of the number of jobs.
#[derive(Clone, Copy)]
struct Order {
    jobs: u32,
    digits: u32,
}

impl Order {
    // The job that has the next turn.
    fn next(&mut self) -> u32 {
        let job = self.digits.checked_rem(self.jobs).unwrap_or(0);
        self.digits = self.digits.checked_div(self.jobs).unwrap_or(0);
        job.wrapping_add(1)
    }

    // Gives so many turns.
    fn play<S: Store>(&mut self, trial: &mut Trial<S>, turns: u32) {
        for _ in 0..turns {
            trial.turn(self.next());
        }
    }
}

// How many turns come first, and then with a correction, if there is one.
#[derive(Clone, Copy)]
struct Turns {
    before: u32,
    correction: Option<Open>,
}

// How many turns come while a correction is open, and after it.
#[derive(Clone, Copy)]
struct Open {
    turns: u32,
    after: u32,
}

impl Turns {
    fn all(self) -> u32 {
        let more = self
            .correction
            .map_or(0, |open| open.turns.wrapping_add(open.after));
        self.before.wrapping_add(more)
    }
}

// Opens a correction that reads both cells.
fn open_and_read<S: Store>(trial: &mut Trial<S>) -> Option<Slip> {
    let slip = trial.open()?;
    trial.read(&slip, 0);
    trial.read(&slip, 1);
    Some(slip)
}

// Writes the first cell and files the correction; withdraws it where that is refused.
fn file<S: Store>(trial: &mut Trial<S>, slip: Slip) {
    trial.write(&slip, 0, 9);
    if let Some(slip) = trial.file(slip) {
        trial.withdraw(slip);
    }
}

// A correction between the turns.
fn correct<S: Store>(trial: &mut Trial<S>, order: &mut Order, turns: Open) {
    let slip = open_and_read(trial);
    order.play(trial, turns.turns);
    if let Some(slip) = slip {
        file(trial, slip);
    }
    order.play(trial, turns.after);
}

// One run in which the jobs have their first turns in this order, and then all that they can use.
fn run<S: Store>(
    store: S,
    programs: &[Program],
    order: Order,
    turns: Turns,
    tally: &mut Tally,
) -> S {
    let mut order = order;
    let mut trial = Trial::new(store, programs, &CELLS, tally);
    order.play(&mut trial, turns.before);
    if let Some(open) = turns.correction {
        correct(&mut trial, &mut order, open);
    }
    trial.finish();
    trial.close()
}

// Every order of so many first turns.
fn every_order<S: Store>(store: S, programs: &[Program], turns: Turns, tally: &mut Tally) -> S {
    let jobs = u32::try_from(programs.len()).unwrap_or(0);
    let mut store = store;
    for digits in 0..jobs.saturating_pow(turns.all()) {
        store = run(store, programs, Order { jobs, digits }, turns, tally);
    }
    store
}

// Every order of so many first turns, with a correction opened before so many of them, and filed at once or some turns
// later.
fn every_filing<S: Store>(
    store: S,
    programs: &[Program],
    before: u32,
    later: u32,
    tally: &mut Tally,
) -> S {
    let mut store = store;
    for turns in 0..=later {
        let after = later.saturating_sub(turns);
        let correction = Some(Open { turns, after });
        let turns = Turns { before, correction };
        store = every_order(store, programs, turns, tally);
    }
    store
}

// The same with a correction opened before, between or after them.
fn every_correction<S: Store>(store: S, programs: &[Program], turns: u32, tally: &mut Tally) -> S {
    let mut store = store;
    for before in 0..=turns {
        let later = turns.saturating_sub(before);
        store = every_filing(store, programs, before, later, tally);
    }
    store
}

// How many first turns are mixed in every way: of two jobs and of three, without a correction and with one.
#[derive(Clone, Copy)]
pub(crate) struct MixedTurns {
    pub(crate) of_two: u32,
    pub(crate) of_two_corrected: u32,
    pub(crate) of_three: u32,
    pub(crate) of_three_corrected: u32,
}

// So many first turns without a correction, and so many with one.
fn every_way<S: Store>(
    store: S,
    programs: &[Program],
    before: u32,
    corrected: u32,
    tally: &mut Tally,
) -> S {
    let alone = Turns {
        before,
        correction: None,
    };
    let store = every_order(store, programs, alone, tally);
    every_correction(store, programs, corrected, tally)
}

fn two<S: Store>(store: S, programs: [Program; 2], mixed: MixedTurns, tally: &mut Tally) -> S {
    every_way(
        store,
        &programs,
        mixed.of_two,
        mixed.of_two_corrected,
        tally,
    )
}

fn three<S: Store>(store: S, programs: [Program; 3], mixed: MixedTurns, tally: &mut Tally) -> S {
    every_way(
        store,
        &programs,
        mixed.of_three,
        mixed.of_three_corrected,
        tally,
    )
}

// All mixtures of small runs over a store.
pub(crate) fn mixtures<S: Store>(store: S, mixed: MixedTurns, tally: &mut Tally) -> S {
    let store = two(store, [doubler(), copier()], mixed, tally);
    let store = two(store, [swapper(), doubler()], mixed, tally);
    let store = two(store, [waiter(), adder()], mixed, tally);
    let store = two(store, [rereader(), doubler()], mixed, tally);
    three(store, [waiter(), adder(), swapper()], mixed, tally)
}

use crate::bounds::{CELLS, MOST_CORRECTIONS, MOST_JOBS, RUN};
use crate::programs::{adder, by_chance, used_cell};
use crate::random::Random;
use crate::tally::Tally;
use crate::trial::Trial;
use job::program::Program;
use run::intake::Intake;
use run::slip::Slip;
use store::Store;
use store::word_table::WordTable;

// How many calls are made on a run before its end.
const CALLS: u32 = 500;

// The slips that are not spent, as many as the corrections that a run may open.
type Slips = [Option<Slip>; MOST_CORRECTIONS];

// A cell that jobs use, or one that may lie beyond the store.
fn any_cell(random: &mut Random) -> u32 {
    if random.below(8) == 0 {
        random.below(CELLS as u32 + 2)
    } else {
        used_cell(random)
    }
}

fn keep(slot: &mut Option<Slip>, slip: Slip) {
    if let Some(old) = slot.replace(slip) {
        let _ = old.discard();
    }
}

// Opens a correction in an empty slot, or makes a call with the slip that is there.
fn correct<S: Store>(trial: &mut Trial<S>, slot: &mut Option<Slip>, random: &mut Random) {
    let Some(slip) = slot.take() else {
        if let Some(slip) = trial.open() {
            keep(slot, slip);
        }
        return;
    };
    match random.below(12) {
        0 => trial.withdraw(slip),
        1 => {
            if let Some(slip) = trial.file(slip) {
                keep(slot, slip);
            }
        }
        2..=6 => {
            trial.read(&slip, any_cell(random));
            keep(slot, slip);
        }
        _ => {
            trial.write(&slip, any_cell(random), random.below(10));
            keep(slot, slip);
        }
    }
}

// Calls with the slip of another run, which may have the same number: then the slip passes for one of this run.
fn use_slip_of_other_run<S: Store>(trial: &mut Trial<S>, number: u32, random: &mut Random) {
    let mut words = [0];
    let mut other = Intake::new(WordTable::new(&mut words), number).seal();
    if let Ok(slip) = other.open_correction() {
        trial.read(&slip, any_cell(random));
        trial.write(&slip, any_cell(random), 3);
        if let Some(slip) = trial.file(slip) {
            trial.withdraw(slip);
        }
    }
    other.close();
}

// One call by chance: mostly a turn, of a job that was not admitted now and then.
fn call<S: Store>(trial: &mut Trial<S>, slips: &mut Slips, random: &mut Random) {
    match random.below(32) {
        0 => trial.settle(),
        1 => {
            trial.turn(random.below(40));
        }
        2 => use_slip_of_other_run(trial, RUN.wrapping_add(random.below(2)), random),
        3..=8 => {
            let place = random.below(MOST_CORRECTIONS as u32) as usize;
            if let Some(slot) = slips.get_mut(place) {
                correct(trial, slot, random);
            }
        }
        _ => {
            trial.turn(random.below(MOST_JOBS as u32).wrapping_add(1));
        }
    }
}

fn calls<S: Store>(trial: &mut Trial<S>, slips: &mut Slips, random: &mut Random) {
    for _ in 0..CALLS {
        call(trial, slips, random);
    }
}

// Withdraws some of the corrections whose slips are left.
fn withdraw_some<S: Store>(trial: &mut Trial<S>, slips: &mut Slips, random: &mut Random) {
    for slot in slips.iter_mut() {
        if random.below(2) == 0 {
            if let Some(slip) = slot.take() {
                trial.withdraw(slip);
            }
        }
    }
}

fn discard(slot: Option<Slip>) {
    if let Some(slip) = slot {
        let _ = slip.discard();
    }
}

// Lets go of the slips that are left when their run is closed. One by one: a loop over an array would drop what it has
// not reached, and a slip cannot be dropped.
fn discard_all(slips: Slips) {
    let [a, b, c, d, e, f, g, h] = slips;
    discard(a);
    discard(b);
    discard(c);
    discard(d);
    discard(e);
    discard(f);
    discard(g);
    discard(h);
}

fn jobs(random: &mut Random) -> [Program; MOST_JOBS] {
    let mut programs = [adder(); MOST_JOBS];
    for program in programs.iter_mut() {
        *program = by_chance(random);
    }
    programs
}

fn cells(random: &mut Random) -> [u32; CELLS] {
    let mut cells = [0; CELLS];
    for number in cells.iter_mut() {
        *number = random.below(10);
    }
    cells
}

// A long run: jobs, cells and calls by chance. Some are closed as they stand, in the midst of a commit too.
fn long_run<S: Store>(store: S, random: &mut Random, tally: &mut Tally) -> S {
    let programs = jobs(random);
    let mut trial = Trial::new(store, &programs, &cells(random), tally);
    let mut slips = [None, None, None, None, None, None, None, None];
    calls(&mut trial, &mut slips, random);
    withdraw_some(&mut trial, &mut slips, random);
    if random.below(4) == 0 {
        trial.break_off();
    } else {
        trial.finish();
    }
    let store = trial.close();
    discard_all(slips);
    store
}

// Reads every cell, more than the read log has room for, and one beyond the store.
fn read_all<S: Store>(trial: &mut Trial<S>, slip: &Slip) {
    for cell in 0..=CELLS as u32 {
        trial.read(slip, cell);
    }
}

// Writes every cell, likewise.
fn write_all<S: Store>(trial: &mut Trial<S>, slip: &Slip) {
    for cell in 0..=CELLS as u32 {
        trial.write(slip, cell, cell);
    }
}

// A correction that reads and writes every cell, more than its logs have room for.
fn full_logs<S: Store>(store: S, tally: &mut Tally) -> S {
    let programs = [adder()];
    let mut trial = Trial::new(store, &programs, &[0; CELLS], tally);
    if let Some(slip) = trial.open() {
        read_all(&mut trial, &slip);
        write_all(&mut trial, &slip);
        if let Some(slip) = trial.file(slip) {
            trial.withdraw(slip);
        }
    }
    trial.finish();
    trial.close()
}

// So many long runs over a store, one after the other.
pub(crate) fn long_runs<S: Store>(store: S, runs: u64, tally: &mut Tally) -> S {
    let mut store = full_logs(store, tally);
    for seed in 1..=runs {
        store = long_run(store, &mut Random::new(seed), tally);
    }
    store
}

use crate::bounds::CELLS;
use crate::random::Random;
use job::program::Program;
use model::Step;

// Reads cell 0 into register 0, and writes it back.
const READ: Step = Step::Read {
    register: 0,
    cell: 0,
};

const WRITE: Step = Step::Write {
    cell: 0,
    register: 0,
};

// Adds one to cell 0.
const ADDER: [Step; 5] = [
    READ,
    Step::Load {
        register: 1,
        number: 1,
    },
    Step::Add {
        register: 0,
        other: 1,
    },
    WRITE,
    Step::End,
];

// Doubles cell 0.
const DOUBLER: [Step; 4] = [
    READ,
    Step::Add {
        register: 0,
        other: 0,
    },
    WRITE,
    Step::End,
];

// Copies cell 0 to cell 1.
const COPIER: [Step; 3] = [
    READ,
    Step::Write {
        cell: 1,
        register: 0,
    },
    Step::End,
];

// Swaps cells 0 and 1.
const SWAPPER: [Step; 5] = [
    READ,
    Step::Read {
        register: 1,
        cell: 1,
    },
    Step::Write {
        cell: 1,
        register: 0,
    },
    Step::Write {
        cell: 0,
        register: 1,
    },
    Step::End,
];

// Waits while cell 0 is not above 7, and else copies it to cell 1.
const WAITER: [Step; 6] = [
    READ,
    Step::Load {
        register: 1,
        number: 7,
    },
    Step::JumpIfLess {
        register: 1,
        other: 0,
        step: 5,
    },
    Step::Wait,
    Step::Write {
        cell: 1,
        register: 0,
    },
    Step::End,
];

// Reads cell 0, writes it, reads its own writing, and copies that to cell 1.
const REREADER: [Step; 6] = [
    READ,
    Step::Load {
        register: 1,
        number: 3,
    },
    Step::Write {
        cell: 0,
        register: 1,
    },
    Step::Read {
        register: 2,
        cell: 0,
    },
    Step::Write {
        cell: 1,
        register: 2,
    },
    Step::End,
];

// How many cells the jobs by chance mostly use, so that they get in each other's way.
const HOT_CELLS: u32 = 4;

// How many steps a job by chance has at most before its last.
const MOST_STEPS_BEFORE: usize = 14;

pub(crate) fn adder() -> Program {
    Program::new(&ADDER).unwrap()
}

pub(crate) fn doubler() -> Program {
    Program::new(&DOUBLER).unwrap()
}

pub(crate) fn copier() -> Program {
    Program::new(&COPIER).unwrap()
}

pub(crate) fn swapper() -> Program {
    Program::new(&SWAPPER).unwrap()
}

pub(crate) fn rereader() -> Program {
    Program::new(&REREADER).unwrap()
}

pub(crate) fn waiter() -> Program {
    Program::new(&WAITER).unwrap()
}

// A cell that many use, and now and then any other.
pub(crate) fn used_cell(random: &mut Random) -> u32 {
    if random.below(16) == 0 {
        random.below(CELLS as u32)
    } else {
        random.below(HOT_CELLS)
    }
}

// A step by chance that so many others follow.
fn step(random: &mut Random, place: u32, later: u32) -> Step {
    let register = random.below(8);
    let other = random.below(8);
    let cell = used_cell(random);
    match random.below(12) {
        0..=3 => Step::Read { register, cell },
        4..=6 => Step::Write { cell, register },
        7 => Step::Load {
            register,
            number: random.below(9),
        },
        8 => Step::Add { register, other },
        9 => Step::Subtract { register, other },
        10 => Step::JumpIfLess {
            register,
            other,
            step: place.wrapping_add(2).wrapping_add(random.below(later)),
        },
        _ if random.below(4) == 0 => Step::Wait,
        _ => Step::Read { register, cell },
    }
}

// A job by chance. Most end, some wait at last.
pub(crate) fn by_chance(random: &mut Random) -> Program {
    let mut steps = [Step::End; MOST_STEPS_BEFORE + 1];
    let before = random.below(MOST_STEPS_BEFORE as u32 + 1);
    for (place, slot) in (0..before).zip(steps.iter_mut()) {
        *slot = step(random, place, before.wrapping_sub(place));
    }
    if random.below(8) == 0 {
        if let Some(last) = steps.get_mut(before as usize) {
            *last = Step::Wait;
        }
    }
    let length = before as usize + 1;
    steps
        .get(..length)
        .and_then(Program::new)
        .unwrap_or(adder())
}

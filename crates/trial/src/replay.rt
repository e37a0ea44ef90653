use crate::bounds::CELLS;
use arrayvec::ArrayVec;
use model::Step;

const REGISTERS: usize = 8;

// How many readings and writings of one correction are kept.
const MOST_ACCESSES: usize = 96;

// Numbers of cells: of all cells of a store, or of some.
#[derive(Clone, Copy)]
pub(crate) struct Numbers {
    numbers: [Option<u32>; CELLS],
}

impl Numbers {
    pub(crate) fn new() -> Numbers {
        Numbers {
            numbers: [None; CELLS],
        }
    }

    pub(crate) fn get(&self, cell: u32) -> Option<u32> {
        self.numbers.get(cell as usize).copied().flatten()
    }

    pub(crate) fn put(&mut self, cell: u32, number: u32) {
        if let Some(slot) = self.numbers.get_mut(cell as usize) {
            *slot = Some(number);
        }
    }

    // How many cells have a number here.
    pub(crate) fn len(&self) -> usize {
        self.numbers
            .iter()
            .filter(|number| number.is_some())
            .count()
    }

    // Puts all numbers that the other has.
    fn put_all(&mut self, other: &Numbers) {
        for (number, newer) in self.numbers.iter_mut().zip(other.numbers.iter()) {
            *number = newer.or(*number);
        }
    }
}

// A reading of a correction with the number that was answered, or a writing.
#[derive(Clone, Copy)]
pub(crate) enum Access {
    Read { cell: u32, number: u32 },
    Write { cell: u32, number: u32 },
}

// Fills the places of a list of accesses.
impl Default for Access {
    fn default() -> Access {
        Access::Read { cell: 0, number: 0 }
    }
}

pub(crate) type Accesses = ArrayVec<Access, MOST_ACCESSES>;

// Plays a commit order alone: one entry after the other on its cells, with no turns, no marks and no right.
#[derive(Clone, Copy)]
pub(crate) struct Player {
    pub(crate) cells: Numbers,
    // What the entry has written so far.
    writes: Numbers,
    registers: [u32; REGISTERS],
}

// How an entry's play ended.
#[derive(Clone, Copy, PartialEq)]
pub(crate) enum Ending {
    // It ended, and so many cells were set.
    Ends(usize),
    // It waits, and the cells stand.
    Waits,
}

impl Player {
    pub(crate) fn new(cells: Numbers) -> Player {
        Player {
            cells,
            writes: Numbers::new(),
            registers: [0; REGISTERS],
        }
    }

    // The number that a reading gives: the entry's own, else the cell's.
    fn read(&self, cell: u32) -> u32 {
        self.writes.get(cell).or(self.cells.get(cell)).unwrap_or(0)
    }

    fn at(&self, register: u32) -> u32 {
        self.registers.get(register as usize).copied().unwrap_or(0)
    }

    fn load(&mut self, register: u32, number: u32) {
        if let Some(slot) = self.registers.get_mut(register as usize) {
            *slot = number;
        }
    }

    // What was written goes into the cells.
    fn end(&mut self) -> Ending {
        self.cells.put_all(&self.writes);
        Ending::Ends(self.writes.len())
    }

    // The register that a step changes, and the number that it gets.
    fn made(&self, step: Step) -> Option<(u32, u32)> {
        match step {
            Step::Read { register, cell } => Some((register, self.read(cell))),
            Step::Load { register, number } => Some((register, number)),
            Step::Add { register, other } => {
                Some((register, self.at(register).wrapping_add(self.at(other))))
            }
            Step::Subtract { register, other } => {
                Some((register, self.at(register).wrapping_sub(self.at(other))))
            }
            Step::Write { .. } | Step::JumpIfLess { .. } | Step::Wait | Step::End => None,
        }
    }

    // Does what a step says, and answers how many steps stand before the next.
    fn step(&mut self, step: Step, next: usize) -> usize {
        if let Some((register, number)) = self.made(step) {
            self.load(register, number);
        }
        match step {
            Step::Write { cell, register } => {
                let number = self.at(register);
                self.writes.put(cell, number);
                next
            }
            Step::JumpIfLess {
                register,
                other,
                step,
            } if self.at(register) < self.at(other) => (step as usize).saturating_sub(1),
            Step::JumpIfLess { .. }
            | Step::Read { .. }
            | Step::Load { .. }
            | Step::Add { .. }
            | Step::Subtract { .. }
            | Step::Wait
            | Step::End => next,
        }
    }

    // Plays a job: its steps from the first on.
    pub(crate) fn job(&mut self, steps: &[Step]) -> Ending {
        self.writes = Numbers::new();
        self.registers = [0; REGISTERS];
        let mut place = 0;
        for _ in 0..steps.len() {
            match steps.get(place) {
                Some(Step::End) => return self.end(),
                Some(Step::Wait) | None => return Ending::Waits,
                Some(step) => place = self.step(*step, place.wrapping_add(1)),
            }
        }
        Ending::Waits
    }

    // Plays a correction, and answers None where it reads another number than was answered.
    pub(crate) fn correction(&mut self, accesses: &[Access]) -> Option<Ending> {
        self.writes = Numbers::new();
        for access in accesses {
            match *access {
                Access::Read { cell, number } if self.read(cell) != number => return None,
                Access::Read { .. } => {}
                Access::Write { cell, number } => self.writes.put(cell, number),
            }
        }
        Some(self.end())
    }
}

use crate::bounds::MOST_ENTRIES;
use crate::replay::{Access, Accesses, Numbers};
use model::Refusal;

// What a correction has read and written so far, by what it was answered.
#[derive(Drop)]
pub(crate) struct Correction {
    pub(crate) is_open: bool,
    pub(crate) reads: Numbers,
    writes: Numbers,
    // What was read and written, in order, unless there was more than is kept.
    accesses: Accesses,
    is_whole: bool,
}

// Fills the places of a list of corrections.
impl Default for Correction {
    fn default() -> Correction {
        Correction::new()
    }
}

impl Correction {
    pub(crate) fn new() -> Correction {
        Correction {
            is_open: true,
            reads: Numbers::new(),
            writes: Numbers::new(),
            accesses: Accesses::new(),
            is_whole: true,
        }
    }

    // What was read and written, in order, if all of it was kept.
    pub(crate) fn accesses(&self) -> Option<&[Access]> {
        self.is_whole.then_some(self.accesses.as_slice())
    }

    fn keep(&mut self, access: Access) {
        if self.accesses.try_push(access).is_err() {
            self.is_whole = false;
        }
    }

    // What reading a cell is to answer, where the store answers this.
    pub(crate) fn read(&mut self, cell: u32, stored: Result<u32, Refusal>) -> Result<u32, Refusal> {
        let stored = stored?;
        let number = match self.writes.get(cell).or(self.reads.get(cell)) {
            Some(number) => number,
            None if self.reads.len() >= MOST_ENTRIES => return Err(Refusal::LogFull),
            None => {
                self.reads.put(cell, stored);
                stored
            }
        };
        self.keep(Access::Read { cell, number });
        Ok(number)
    }

    // What writing a cell is to answer, likewise.
    pub(crate) fn write(
        &mut self,
        cell: u32,
        number: u32,
        stored: Result<u32, Refusal>,
    ) -> Result<(), Refusal> {
        stored?;
        if self.writes.get(cell).is_none() && self.writes.len() >= MOST_ENTRIES {
            return Err(Refusal::LogFull);
        }
        self.writes.put(cell, number);
        self.keep(Access::Write { cell, number });
        Ok(())
    }
}

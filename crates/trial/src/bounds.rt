// The bounds of a run and the numbers of the trials. The first are written anew and not taken from the library, so that
// a wrong bound there is seen.

pub(crate) const MOST_JOBS: usize = 16;

pub(crate) const MOST_STEPS: usize = 24;

pub(crate) const MOST_CORRECTIONS: usize = 8;

pub(crate) const MOST_ENTRIES: usize = 24;

// How many cells a store of a trial has at most: more than a log may name and more than a layer holds.
pub(crate) const CELLS: usize = 40;

// The number of each run that is tried.
pub(crate) const RUN: u32 = 1;

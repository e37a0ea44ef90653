use model::Step;
use script::{Allotment, Preset};

// What a line says, with its numbers read.
#[derive(Clone, Copy)]
pub enum Entry {
    // How many cells the store has.
    Size(u32),
    Preset(Preset),
    // The next job begins.
    Job,
    Step(Step),
    Turns(Allotment),
}

ghost use Rattle.std.specs.Prelude.{◌≤◌, vec_capacity};

use job::program::Program;
use script::{Allotment, Preset};

// The lists of a script, with memory for those of every listing.
#[derive(Drop)]
pub struct Lists {
    pub(crate) presets: Vec<Preset>,
    pub(crate) jobs: Vec<Program>,
    pub(crate) turns: Vec<Allotment>,
    ghost preset_room: { 32768 ≤ vec_capacity presets },
    ghost job_room: { 16 ≤ vec_capacity jobs },
    ghost turn_room: { 32768 ≤ vec_capacity turns },
}

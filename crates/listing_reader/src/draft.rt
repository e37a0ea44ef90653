ghost use Rattle.std.specs.Prelude.{◌<◌, ◌≤◌, vec_len, vec_capacity};

use crate::lists::Lists;
use model::Step;
use script::Section;

// What was read of a listing so far. Each line adds at most one member to a list.
#[derive(Drop)]
pub struct Draft {
    pub(crate) section: Section,
    pub(crate) count: u32,
    pub(crate) lists: Lists,
    // The line and the steps of the job that is being read.
    pub(crate) job_line: u32,
    pub(crate) steps: Vec<Step>,
    // The line that is read next, as the reader has it. The lists are bounded by it.
    pub(crate) line: u32,
    ghost step_room: { 32768 ≤ vec_capacity steps },
    ghost few_jobs: { vec_len lists.jobs ≤ 16 },
    ghost few_lines: { line ≤ 32769 },
    ghost job_before: { job_line < line },
    ghost presets_before: { vec_len lists.presets < line },
    ghost turns_before: { vec_len lists.turns < line },
    ghost steps_before: { vec_len steps < line },
}

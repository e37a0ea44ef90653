ghost use Rattle.std.specs.Prelude.{◌≡◌, ◌≤◌, vec_len, vec_capacity};

use crate::lists::Lists;
use model::Step;

// Memory for every script that a listing can have, so that no reading fails for want of it.
#[derive(Drop)]
pub struct Room {
    pub(crate) lists: Lists,
    pub(crate) steps: Vec<Step>,
    ghost step_room: { 32768 ≤ vec_capacity steps },
    ghost no_presets: { vec_len lists.presets ≡ 0 },
    ghost no_jobs: { vec_len lists.jobs ≡ 0 },
    ghost no_turns: { vec_len lists.turns ≡ 0 },
    ghost no_steps: { vec_len steps ≡ 0 },
}

ghost use Rattle.std.specs.Prelude.{IfOk};
ghost use Rattle.listing_reader.specs.Drafts.{Unused};

use crate::lists::Lists;
use crate::room::Room;
use job::admission::MOST_JOBS;
use std::alloc::{AllocError, Global};

// A listing has at most 65,536 bytes, and a line two at least.
const MOST_LINES: usize = 32_768;

impl Room {
    // Fails only for want of memory.
    pub fn new(heap: Global) -> Result<Room, AllocError>
        ensures { IfOk result Unused }
    {
        let lists = Lists {
            presets: Vec::with_capacity(heap, MOST_LINES)?,
            jobs: Vec::with_capacity(heap, MOST_JOBS)?,
            turns: Vec::with_capacity(heap, MOST_LINES)?,
        };
        let steps = Vec::with_capacity(heap, MOST_LINES)?;
        Ok(Room { lists, steps })
    }
}

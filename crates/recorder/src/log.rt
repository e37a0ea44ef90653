use arrayvec::ArrayVec;
use store::change::Change;

// How many sets a log has room for.
const MOST_SETS: usize = 80;

// What was set on a store, in order, and how many sets found no room.
#[derive(Drop)]
pub struct Log {
    pub sets: ArrayVec<Change, MOST_SETS>,
    pub missed: usize,
}

impl Log {
    ghost use Rattle.std.specs.Prelude.{◌≡◌, []};
    ghost use Rattle.recorder.specs.Logs.{Logs};

    // Nothing was set.
    pub(crate) fn new() -> Log
        ensures sets { result.sets.items ≡ [] }
        ensures missed { result.missed ≡ 0 }
    {
        Log {
            sets: ArrayVec::new(),
            missed: 0,
        }
    }

    // One set more.
    pub(crate) fn add(&mut self, change: Change)
        ensures { Logs self.old change self.new }
    {
        if self.sets.is_full() {
            self.missed = self.missed.saturating_add(1);
        } else {
            self.sets.push(change);
        }
    }
}

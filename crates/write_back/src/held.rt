ghost use Rattle.std.specs.Prelude.{◌≡◌, ◌^◌, true};
ghost use Rattle.store.specs.Changes.{distinct, sound};

mod table;

use arrayvec::ArrayVec;
use store::change::Change;

// How many cells are held at most.
const MOST_HELD: usize = 32;

// The cells that a layer holds, the one held longest first.
#[derive(Drop)]
pub(crate) struct Held {
    changes: ArrayVec<Change, MOST_HELD>,
    // No cell is held twice, and each number has 32 bits.
    ghost apart: { distinct changes.items ≡ true },
    ghost sound: { sound (2 ^ 32) changes.items ≡ true },
}

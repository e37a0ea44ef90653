#![tactic(auto)]

ghost use Rattle.std.specs.Prelude.{◌≡◌, false, [], length, if◌then◌else◌, nat_lt, slice_set};
ghost use Rattle.store.specs.Changes.{replay};
ghost use Rattle.store.specs.Sets.{SetsEach};
ghost use Rattle.write_back.specs.Holding.{evicted, held_in, set_below, Holds};

mod held;

use held::Held;
use store::Store;

// A layer over any store, again a store, that keeps up to 32 set cells to itself. It means the store below with these
// cells replaced. It is not `Drop`: only `into_store` lets go of it, so that no held number can be lost.
pub struct WriteBack<S: Store> {
    below: S,
    held: Held,
}

impl<S: Store> Store for WriteBack<S> {
    ghost cells = { λ s. replay (S.Store.cells s.below) (held_in s.held) };

    ghost loan = { λ s. S.Store.loan s.below };

    ghost sets = { Holds S.Store.cells S.Store.sets };

    fn count(&self) -> usize {
        self.below.count()
    }

    fn get(&self, cell: u32) -> Option<u32> {
        if cell as usize >= self.count() {
            return None;
        }
        let held = self.held.number_of(cell);
        held.or_else(|| self.below.get(cell))
    }

    // Holds the cell, and sets nothing below but, before a 33rd different cell is held, the one held longest. A held
    // cell that is set again keeps its place.
    fn set(&mut self, cell: u32, number: u32) -> bool
        ensures answer { result ≡ nat_lt cell (length (replay (S.Store.cells self.old.below) (held_in self.old.held))) }
        ensures after { replay (S.Store.cells self.new.below) (held_in self.new.held) ≡ slice_set (replay (S.Store.cells self.old.below) (held_in self.old.held)) cell number }
        ensures same { S.Store.loan self.new.below ≡ S.Store.loan self.old.below }
        ensures done { Holds S.Store.cells S.Store.sets self.old cell number self.new }
        ensures refused { result ≡ false → self.new ≡ self.old }
        ensures below { S.Store.cells self.new.below ≡ (if result then set_below (S.Store.cells self.old.below) (evicted (held_in self.old.held) cell) else S.Store.cells self.old.below) }
    {
        if cell as usize >= self.count() {
            return false;
        }
        if let Some(oldest) = self.held.make_room(cell) {
            self.below.set(oldest.cell, oldest.number);
        }
        self.held.put(cell, number);
        true
    }
}

impl<S: Store> WriteBack<S> {
    // A layer that holds nothing.
    pub fn new(below: S) -> WriteBack<S>
        ensures below { result.below ≡ below }
        ensures held { held_in result.held ≡ [] }
    {
        WriteBack {
            below,
            held: Held::new(),
        }
    }

    // Sets every held cell below, and gives that store back.
    pub fn into_store(self) -> S
        ensures cells { S.Store.cells result ≡ replay (S.Store.cells self.below) (held_in self.held) }
        ensures loan { S.Store.loan result ≡ S.Store.loan self.below }
        ensures each { SetsEach S.Store.sets self.below (held_in self.held) result }
    {
        let WriteBack { mut below, held } = self;
        for change in held.changes() {
            below.set(change.cell, change.number);
        }
        below
    }
}

ghost use Rattle.std.specs.Prelude.{◌≡◌, ℕ, ◌^◌, ◌<◌, ◌≤◌, length, slice_index};
ghost use Rattle.run.specs.Runs.{state};

use crate::run::Run;
use store::Store;

impl<S: Store> Run<S> {
    // How many cells there are. The number of each has 32 bits.
    pub fn count(&self) -> usize
        ensures value { result ≡ length (state S.Store.cells self.now).cells }
        ensures few { result ≤ 65536 }
        ensures fit { (k : ℕ) → slice_index (state S.Store.cells self.now).cells k < 2 ^ 32 }
    {
        self.store.count()
    }

    // How many jobs were admitted.
    pub fn jobs(&self) -> usize
        ensures value { result ≡ length (state S.Store.cells self.now).jobs }
        ensures few { result ≤ 16 }
    {
        self.table.len()
    }

    // How many entries the commit order has.
    pub fn commits(&self) -> usize
        ensures value { result ≡ length (state S.Store.cells self.now).order }
        ensures few { result ≤ 24 }
    {
        self.table.commits()
    }
}

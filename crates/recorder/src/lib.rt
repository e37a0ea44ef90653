// A store that keeps a list of what is set on it, for tests: what a run or a layer sets is seen there, set by set.
#![tactic(auto)]

ghost use Rattle.std.specs.Prelude.{◌≡◌, []};

mod log;

pub use log::Log;
use store::Store;
use store::change::Change;

// A store over any store, with the same cells, that keeps in a log what is set on it.
pub struct Recorder<S: Store> {
    pub inner: S,
    pub log: Log,
}

impl<S: Store> Store for Recorder<S> {
    ghost use Rattle.recorder.specs.Recording.{Records};

    ghost cells = { λ s. S.Store.cells s.inner };

    ghost loan = { λ s. S.Store.loan s.inner };

    ghost sets = { Records S.Store.cells S.Store.sets };

    fn count(&self) -> usize {
        self.inner.count()
    }

    fn get(&self, cell: u32) -> Option<u32> {
        self.inner.get(cell)
    }

    fn set(&mut self, cell: u32, number: u32) -> bool {
        if !self.inner.set(cell, number) {
            return false;
        }
        self.log.add(Change { cell, number });
        true
    }
}

impl<S: Store> Recorder<S> {
    // A recorder with nothing in its log.
    pub fn new(inner: S) -> Recorder<S>
        ensures inner { result.inner ≡ inner }
        ensures sets { result.log.sets.items ≡ [] }
        ensures missed { result.log.missed ≡ 0 }
    {
        Recorder {
            inner,
            log: Log::new(),
        }
    }
}

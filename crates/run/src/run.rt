ghost use Rattle.run.specs.Reached.{Reached};
ghost use Rattle.table.specs.States.{state_of};

use store::Store;
use table::table::Table;

// A running run. Only it takes turns and corrections, and only sealing an intake makes one. That its store stays the same
// loan is said of each call: it relates before and after, and so is no invariant of a run.
pub struct Run<S: Store> {
    pub(crate) store: S,
    pub(crate) table: Table,
    // Some intake was sealed, and some calls led here.
    ghost reached: { ∥ Reached (state_of (S.Store.cells store) table) ∥₁ },
}

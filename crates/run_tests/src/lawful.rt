ghost use Rattle.std.specs.Prelude.{◌≡◌, ◌+◌, ◌≤◌, [], ◌∷◌, replicate, IfOk};
ghost use Rattle.model.specs.Calls.{Turn, File};
ghost use Rattle.model.specs.Law.{left_by};
ghost use Rattle.run.specs.Runs.{begun, state};
ghost use Rattle.run.specs.Slips.{numbers_of};

use model::Refusal;
use run::intake::Intake;
use run::run::Run;
use run::slip::{Slip, Unfiled};
use store::Store;

// Shows how the law follows for a sequence of calls from their contracts alone: whatever the intake, the job and the
// slip, the store that comes back holds what the replay of the commit order leaves.
pub fn turn_and_file<S: Store>(intake: Intake<S>, job: u32, slip: Slip) -> S
    ensures { S.Store.cells result ≡ left_by (begun S.Store.cells intake) (Turn job ∷ File (numbers_of slip) ∷ []) }
{
    let mut run = intake.seal();
    let _ = run.turn(job);
    let filed = run.file(slip);
    let store = run.close();
    discard(filed);
    store
}

// The same where the calls are made in a loop, as many as are asked for: what is kept from turn to turn is which calls led
// to the run.
pub fn turns_and_close<S: Store>(intake: Intake<S>, job: u32, turns: usize) -> S
    ensures { S.Store.cells result ≡ left_by (begun S.Store.cells intake) (replicate turns (Turn job)) }
{
    let mut run = intake.seal();
    for _ in 0..turns {
        let _answer = run.turn(job);
    }
    run.close()
}

// Lets go of a slip that came back, now that its run is closed.
fn discard(filed: Result<(), Unfiled>) {
    if let Err(Unfiled { slip, refusal: _ }) = filed {
        let _ = slip.discard();
    }
}

// Whoever is handed a run, and knows neither its intake nor what was called, has the law of it too: here, that its starts
// are at most one more than takings and settings.
pub fn starts<S: Store>(run: &Run<S>, job: u32) -> Result<u32, Refusal>
    ensures { IfOk result (λ starts. starts ≤ 1 + ((state S.Store.cells run.now).takings + (state S.Store.cells run.now).settings)) }
{
    run.law();
    run.starts(job)
}

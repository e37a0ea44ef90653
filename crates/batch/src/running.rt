ghost use Rattle.std.specs.Prelude.{◌≡◌, length, nat_eq, is_ok, None, IfOk, IfErr};
ghost use Rattle.listing_reader.specs.Drafts.{script_in};
ghost use Rattle.run.specs.Runs.{state};
ghost use Rattle.store.specs.Sets.{SetsEach};
ghost use Rattle.batch.specs.Played.{LeftByJobs};
ghost use Rattle.batch.specs.Runs.{changes_over, intake_over, run_over};

use crate::admissions::admit_all;
use crate::turns::{play, preset};
use listing_reader::script_read::Script;
use run::intake::Intake;
use run::run::Run;
use store::Store;

/// A store that a script was not run over, since the script is for another number of cells.
pub struct OtherCount<S: Store> {
    pub store: S,
}

/// Runs a script over a store, as the run with this number, and answers the run: the presets are set, the first one first, the
/// jobs are admitted, the turns are taken line by line, and the run is settled. It needs no memory beside the store. Cells
/// that no preset names keep the numbers that they have. A store with another count than the script's is refused and comes
/// back as it was.
pub fn run_script<S: Store>(store: S, number: u32, script: &Script) -> Result<Run<S>, OtherCount<S>>
    ensures runs { is_ok result ≡ nat_eq (length (S.Store.cells store)) (script_in script.now).count }
    ensures state { IfOk result (λ run. state S.Store.cells run ≡ run_over number (S.Store.cells store) (script_in script.now)) }
    ensures settled { IfOk result (λ run. (state S.Store.cells run).right ≡ None) }
    ensures serial { IfOk result (λ run. LeftByJobs (intake_over number (S.Store.cells store) (script_in script.now)) (state S.Store.cells run)) }
    ensures store { IfOk result (λ run. SetsEach S.Store.sets store (changes_over number (S.Store.cells store) (script_in script.now)) run.store) }
    ensures loan { IfOk result (λ run. S.Store.loan run.store ≡ S.Store.loan store) }
    ensures refused { IfErr result (λ other. other.store ≡ store) }
{
    if store.count() != script.count() as usize {
        return Err(OtherCount { store });
    }
    Ok(run_fitting(store, number, script))
}

// The run of a script over a store that has as many cells as the script says, after its turns and settling.
pub(crate) fn run_fitting<S: Store>(mut store: S, number: u32, script: &Script) -> Run<S>
    requires { length (S.Store.cells store) ≡ (script_in script.now).count }
    ensures state { state S.Store.cells result ≡ run_over number (S.Store.cells store) (script_in script.now) }
    ensures store { SetsEach S.Store.sets store (changes_over number (S.Store.cells store) (script_in script.now)) result.store }
    ensures loan { S.Store.loan result.store ≡ S.Store.loan store }
{
    preset(&mut store, script.presets());
    let mut intake = Intake::new(store, number);
    admit_all(&mut intake, script.jobs());
    let mut run = intake.seal();
    play(&mut run, script.turns());
    run.settle();
    run
}

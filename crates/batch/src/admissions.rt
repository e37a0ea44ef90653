ghost use Rattle.std.specs.Prelude.{◌≡◌, map};
ghost use Rattle.listing_reader.specs.Drafts.{steps_in};
ghost use Rattle.batch.specs.Runs.{admit_all, intake_in};

use job::program::Program;
use run::intake::Intake;
use store::Store;

// Admits the jobs in their order.
pub(crate) fn admit_all<S: Store>(intake: &mut Intake<S>, jobs: &[Program])
    ensures intake { intake_in S.Store.cells intake.new ≡ admit_all (intake_in S.Store.cells intake.old) (map steps_in jobs.now) }
    ensures store { intake.new.store ≡ intake.old.store }
{
    for job in jobs {
        let _ = intake.admit(job.steps());
    }
}

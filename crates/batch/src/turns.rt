ghost use Rattle.std.specs.Prelude.{◌≡◌, replicate};
ghost use Rattle.model.specs.Calls.{Turn, after, events_of};
ghost use Rattle.run.specs.Runs.{state};
ghost use Rattle.store.specs.Changes.{replay};
ghost use Rattle.store.specs.Sets.{SetsEach};
ghost use Rattle.table.specs.Settings.{Through};
ghost use Rattle.batch.specs.Runs.{turns_of, preset_changes};

use run::run::Run;
use script::{Allotment, Preset};
use store::Store;

// Gives a job so many turns. After one that applies no rule the others are not taken: none of them would apply one either.
fn give_turns<S: Store>(run: &mut Run<S>, job: u32, turns: u32)
    ensures next { state S.Store.cells run.new ≡ after (state S.Store.cells run.old) (replicate turns (Turn job)) }
    ensures store { Through S.Store.sets (events_of (state S.Store.cells run.old) (replicate turns (Turn job))) run.old.store run.new.store }
    ensures loan { S.Store.loan run.new.store ≡ S.Store.loan run.old.store }
{
    for _ in 0..turns {
        if let Ok(None) = run.turn(job) {
            return;
        }
    }
}

// Gives every job its turns, in the order of the list.
pub(crate) fn play<S: Store>(run: &mut Run<S>, turns: &[Allotment])
    ensures next { state S.Store.cells run.new ≡ after (state S.Store.cells run.old) (turns_of turns.now) }
    ensures store { Through S.Store.sets (events_of (state S.Store.cells run.old) (turns_of turns.now)) run.old.store run.new.store }
    ensures loan { S.Store.loan run.new.store ≡ S.Store.loan run.old.store }
{
    for next in turns {
        give_turns(run, next.job, next.turns);
    }
}

// Sets presets, the first one first.
pub(crate) fn preset<S: Store>(store: &mut S, presets: &[Preset])
    ensures cells { S.Store.cells store.new ≡ replay (S.Store.cells store.old) (preset_changes presets.now) }
    ensures each { SetsEach S.Store.sets store.old (preset_changes presets.now) store.new }
    ensures loan { S.Store.loan store.new ≡ S.Store.loan store.old }
{
    for next in presets {
        let _ = store.set(next.cell, next.number);
    }
}

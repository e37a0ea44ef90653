use batch::running::{OtherCount, run_script};
use listing_reader::read::read;
use listing_reader::room::Room;
use listing_reader::script_read::Script;
use model::Party;
use recorder::Recorder;
use run::slip::{Slip, SlipNumbers};
use std::alloc::Global;
use std::test::Fail;
use store::Store;
use store::change::Change;
use store::word_table::WordTable;

// Two cells, of which the first is preset twice, and a job that adds 1 to the second and also writes the first.
const LISTING: &[u8] =
    b"M          2\nC          0          4\nC          0          7\nJ          1\nR          0          1\nK          1          1\nA          0          1\nW          1          0\nR          2          0\nW          0          2\nE\nG          1      10000\n";

fn script_of(heap: Global) -> Result<Script, Fail> {
    read(Room::new(heap)?, LISTING).map_err(|_| Fail::new("refused"))
}

// Cells that no preset names keep their numbers, and the jobs go on from there. The run has the number that it was given.
#[test]
fn a_script_runs_over_what_the_store_has(rt: HostRuntime) -> Result<(), Fail> {
    let script = script_of(rt.alloc())?;
    let mut words = [1, 41];
    let mut run = match run_script(WordTable::new(&mut words), 7, &script) {
        Ok(run) => run,
        Err(OtherCount { store: _ }) => return Err(Fail::new("refused")),
    };
    assert_eq!(rt; run.entry(1), Some(Party::Job(1)));
    assert_eq!(rt; (run.takings(), run.settings()), (1, 2));
    let numbers = run.open_correction().map(Slip::discard);
    assert_eq!(rt;
        numbers,
        Ok(SlipNumbers {
            run: 7,
            correction: 1,
        })
    );
    let _table = run.close();
    assert_eq!(rt; words, [7, 42]);
    Ok(())
}

// The presets are set first, in the order of their lines, and then each cell that the run sets, once.
#[test]
fn a_store_is_set_for_presets_and_commits(rt: HostRuntime) -> Result<(), Fail> {
    let script = script_of(rt.alloc())?;
    let mut words = [1, 41];
    let recorder = match run_script(Recorder::new(WordTable::new(&mut words)), 7, &script) {
        Ok(run) => run.close(),
        Err(OtherCount { store }) => store,
    };
    let Recorder { inner: _, log } = recorder;
    let sets = [(0, 4), (0, 7), (0, 7), (1, 42)].map(|(cell, number)| Change { cell, number });
    assert_eq!(rt; log.sets.as_slice(), sets.as_slice());
    assert_eq!(rt; log.missed, 0);
    Ok(())
}

// What comes back of words that the script is not for: the number of their first cell.
fn refused(words: &mut [u32], script: &Script) -> Option<u32> {
    match run_script(WordTable::new(words), 7, script) {
        Ok(run) => {
            let _table = run.close();
            None
        }
        Err(OtherCount { store }) => store.get(0),
    }
}

// A store of fewer cells than the script is for, and one of more, come back as they were.
#[test]
fn a_store_of_another_count_is_refused(rt: HostRuntime) -> Result<(), Fail> {
    let script = script_of(rt.alloc())?;
    let mut few = [1];
    let mut many = [2, 3, 4];
    assert_eq!(rt; refused(&mut few, &script), Some(1));
    assert_eq!(rt; refused(&mut many, &script), Some(2));
    assert_eq!(rt; few, [1]);
    assert_eq!(rt; many, [2, 3, 4]);
    Ok(())
}

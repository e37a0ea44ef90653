use crate::checks::Checks;
use crate::corrected::{outdated, overtaken, set_again};
use crate::outcomes::{settles, sums, waits};
use change_list::ChangeList;
use store::Store;
use store::change::Change;
use store::word_table::WordTable;
use write_back::WriteBack;

// How many cells the stores of these tests have.
const CELLS: usize = 3;

// What lent memory holds before a change list is made over it.
const OLD: Change = Change { cell: 1, number: 9 };

#[test]
fn word_table(rt: HostRuntime) {
    let mut checks = Checks::new();
    let mut words = [0; CELLS];
    over(&mut checks, WordTable::new(&mut words));
    assert_eq!(rt; checks.failed(), None);
}

#[test]
fn change_list(rt: HostRuntime) {
    let mut checks = Checks::new();
    let mut records = [OLD; CELLS + 1];
    over(&mut checks, ChangeList::new(&mut records));
    assert_eq!(rt; checks.failed(), None);
}

#[test]
fn word_table_corrected(rt: HostRuntime) {
    let mut checks = Checks::new();
    let mut words = [0; CELLS];
    over_corrected(&mut checks, WordTable::new(&mut words));
    assert_eq!(rt; checks.failed(), None);
}

#[test]
fn change_list_corrected(rt: HostRuntime) {
    let mut checks = Checks::new();
    let mut records = [OLD; CELLS + 1];
    over_corrected(&mut checks, ChangeList::new(&mut records));
    assert_eq!(rt; checks.failed(), None);
}

// The runs over a store, and then over two layers on it.
fn over<S: Store + Drop>(checks: &mut Checks, store: S) {
    let layers = WriteBack::new(WriteBack::new(runs(checks, store)));
    let store = runs(checks, layers).into_store().into_store();
    check_left(checks, &store);
}

// The runs with corrections over a store, and then over two layers on it, which then still hold a run without any.
fn over_corrected<S: Store + Drop>(checks: &mut Checks, store: S) {
    let layers = WriteBack::new(WriteBack::new(corrections(checks, store)));
    let layers = corrections(checks, layers);
    let layers = settles(checks, cleared(layers));
    let store = layers.into_store().into_store();
    check_left(checks, &store);
}

// What the last of the runs leaves.
fn check_left<S: Store>(checks: &mut Checks, store: &S) {
    checks.that(
        "what the last run leaves",
        store.get(0) == Some(0) && store.get(1) == Some(8) && store.get(2) == Some(9),
    );
}

// One run after the other, each over cells that hold 0.
fn runs<S: Store>(checks: &mut Checks, store: S) -> S {
    let store = sums(checks, cleared(store));
    let store = waits(checks, cleared(store));
    settles(checks, cleared(store))
}

// Runs with corrections, each over cells of which the first holds 7.
fn corrections<S: Store>(checks: &mut Checks, store: S) -> S {
    let store = outdated(checks, with_seven(store));
    let store = overtaken(checks, with_seven(store));
    set_again(checks, with_seven(store))
}

fn with_seven<S: Store>(store: S) -> S {
    let mut store = cleared(store);
    store.set(0, 7);
    store
}

fn cleared<S: Store>(mut store: S) -> S {
    for cell in 0..CELLS as u32 {
        store.set(cell, 0);
    }
    store
}

use change_list::ChangeList;
use recorder::Recorder;
use store::Store;
use store::change::Change;
use store::word_table::WordTable;
use write_back::WriteBack;

// How many cells the stores of these tests have.
const CELLS: usize = 70;

// The first cell that they have not.
const BEYOND: u32 = CELLS as u32;

#[test]
fn sets_below(rt: HostRuntime) {
    for (different, sets, again) in [(1, 1, 0), (32, 32, 0), (33, 34, 33), (34, 35, 34)] {
        let mut words = [0; CELLS];
        let mut layer = WriteBack::new(Recorder::new(WordTable::new(&mut words)));
        set_different(&mut layer, different);
        assert!(rt; !layer.set(BEYOND, 1));
        assert!(rt; layer.get(BEYOND).is_none());
        let Recorder { inner: _, log } = layer.into_store();
        assert_eq!(rt; log.sets.len(), sets);
        assert_eq!(rt; log.missed, 0);
        for (i, set) in log.sets.iter().enumerate() {
            let (cell, number) = if i == again { (0, 2) } else { (i as u32, 1) };
            assert_eq!(rt; *set, Change { cell, number });
        }
    }
}

// Sets so many different cells to 1, and then cell 0 to 2: up to 32 it is still held and keeps its place, else it is
// held anew.
fn set_different<S: Store>(layer: &mut S, different: u32) {
    for cell in 0..different {
        layer.set(cell, 1);
    }
    layer.set(0, 2);
}

#[test]
fn over_word_table(rt: HostRuntime) {
    let mut words = [0; CELLS];
    assert!(rt; two_layers(WordTable::new(&mut words)));
}

#[test]
fn over_change_list(rt: HostRuntime) {
    let mut records = [Change { cell: 0, number: 9 }; CELLS + 1];
    assert!(rt; two_layers(ChangeList::new(&mut records)));
}

// Drives two layers over a store, and says whether they, and the store once they are taken apart, hold what plain
// numbers do. More than 32 different cells are set, so that cells are set below at both levels. A flag, here and below,
// since the test that asserts it has no more to tell.
fn two_layers<S: Store + Drop>(below: S) -> bool {
    let mut numbers = [0; CELLS];
    let mut top = WriteBack::new(WriteBack::new(below));
    let driven = drive(&mut top, &mut numbers) && agrees(&top, &numbers);
    let middle = top.into_store();
    let taken_apart = agrees(&middle, &numbers);
    let store = middle.into_store();
    driven && taken_apart && agrees(&store, &numbers)
}

// Sets cells all over the store and just beyond it, and says whether each was answered rightly.
fn drive<S: Store>(store: &mut S, numbers: &mut [u32; CELLS]) -> bool {
    let mut same = true;
    for n in 0..400u32 {
        let cell = n * 29 % (BEYOND + 1);
        same &= store.set(cell, n) == (cell < BEYOND);
        if let Some(number) = numbers.get_mut(cell as usize) {
            *number = n;
        }
    }
    same
}

// Whether the store has these numbers, and no more.
fn agrees<S: Store>(store: &S, numbers: &[u32; CELLS]) -> bool {
    let same = (0..BEYOND)
        .zip(numbers)
        .all(|(cell, number)| store.get(cell) == Some(*number));
    same && store.count() == CELLS && store.get(BEYOND).is_none()
}

use change_list::ChangeList;
use std::alloc::Global;
use std::process::Abort;
use std::test::Fail;
use store::Store;
use store::change::Change;
use store::word_table::WordTable;

// The number that each lent word holds at first.
const BEFORE: u32 = 7;

#[test]
fn word_tables(rt: HostRuntime) -> Result<(), Fail> {
    for (len, count) in [(0, 0), (1, 1), (65536, 65536), (65537, 65536)] {
        word_table_of(&rt, rt.alloc(), len, count)?;
    }
    Ok(())
}

// A set of the last cell, and one just beyond the count, over so many words.
fn word_table_of(rt: &impl Abort, heap: Global, len: usize, count: u32) -> Result<(), Fail> {
    let mut words = vec![in heap; BEFORE; len]?;
    let mut table = WordTable::new(words.as_mut_slice());
    assert!(rt; table.count() == count as usize);
    assert!(rt; !table.set(count, 1));
    assert!(rt; table.get(count).is_none());
    if count > 0 {
        assert!(rt; table.get(count - 1) == Some(BEFORE));
        assert!(rt; table.set(count - 1, 1));
    }
    let words = table.into_words();
    for (i, word) in words.iter().enumerate() {
        let is_last = i + 1 == count as usize;
        assert_eq!(rt; *word, if is_last { 1 } else { BEFORE });
    }
    Ok(())
}

#[test]
fn change_lists(rt: HostRuntime) -> Result<(), Fail> {
    for (len, count) in [(0, 0), (1, 0), (2, 1), (3, 2), (65538, 65536)] {
        change_list_of(&rt, rt.alloc(), len, count)?;
    }
    Ok(())
}

// Cells that are 0 at first whatever the records held, and more sets than there are records.
fn change_list_of(rt: &impl Abort, heap: Global, len: usize, count: u32) -> Result<(), Fail> {
    let mut records = vec![in heap; Change {
        cell: 0,
        number: BEFORE
    }; len]?;
    let mut list = ChangeList::new(records.as_mut_slice());
    assert!(rt; list.count() == count as usize);
    assert!(rt; !list.set(count, 1));
    assert!(rt; list.used() == 0);
    assert!(rt; list.get(count).is_none());
    if count > 0 {
        assert!(rt; list.get(0) == Some(0));
        for number in 1..9u32 {
            let used = list.used();
            assert!(rt; list.set(number % count, number));
            assert!(rt; list.used().checked_sub(used) == Some(1) || used == len);
            assert!(rt; list.get(number % count) == Some(number));
        }
        assert!(rt; list.get(7 % count) == Some(if count == 1 { 8 } else { 7 }));
    }
    let used = list.used();
    let records = list.into_records();
    if count > 0 {
        assert!(rt; used > 0);
        let newest = Change {
            cell: 8 % count,
            number: 8,
        };
        assert_eq!(rt; records[used - 1], newest);
    }
    Ok(())
}

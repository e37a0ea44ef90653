ghost use Rattle.std.specs.Prelude.{◌≡◌, ◌∷◌, length, slice_set};
ghost use Rattle.store.specs.Cells.{word_cells, words_beyond};
ghost use Rattle.change_list.specs.Lists.{cells_of};
ghost use Rattle.change_list.specs.Records.{cell_count, list_cells, zeros};

use change_list::ChangeList;
use store::Store;
use store::change::Change;
use store::word_table::WordTable;
use write_back::WriteBack;

// What lent memory holds once a layered store over it is let go follows from the contracts alone. There is a function
// for each store, since what its memory holds is told in words of its own; what they share is `set_through_layers`.

// Sets a cell through two layers, and takes them apart.
fn set_through_layers<S: Store>(below: S, cell: u32, number: u32) -> S
    ensures cells { S.Store.cells result ≡ slice_set (S.Store.cells below) cell number }
    ensures loan { S.Store.loan result ≡ S.Store.loan below }
{
    let mut layer = WriteBack::new(WriteBack::new(below));
    layer.set(cell, number);
    layer.into_store().into_store()
}

// The table with one cell set, over the same loan.
fn table_of<'a>(words: &'a mut [u32], cell: u32, number: u32) -> WordTable<'a>
    ensures cells { word_cells result.words.now ≡ slice_set (word_cells words.old) cell number }
    ensures loan { result.words.ghost_name ∷ words_beyond result.words.now ≡ words.entry.ghost_name ∷ words_beyond words.old }
{
    let table = WordTable::new(words);
    set_through_layers(table, cell, number)
}

// The words end as they were but for that cell.
pub fn set_word(words: &mut [u32], cell: u32, number: u32)
    ensures cells { word_cells words.new ≡ slice_set (word_cells words.old) cell number }
    ensures beyond { words_beyond words.new ≡ words_beyond words.old }
{
    let _table = table_of(words, cell, number);
}

// The list with one cell set, over the same loan.
fn list_of<'a>(records: &'a mut [Change], cell: u32, number: u32) -> ChangeList<'a>
    ensures cells { cells_of result ≡ slice_set (zeros (cell_count (length records.old))) cell number }
    ensures loan { result.records.ghost_name ≡ records.entry.ghost_name }
{
    let list = ChangeList::new(records);
    set_through_layers(list, cell, number)
}

// The first records, as many as the answer says, give zeros but for that cell.
pub fn set_record(records: &mut [Change], cell: u32, number: u32) -> usize
    ensures { list_cells records.new result ≡ slice_set (zeros (cell_count (length records.old))) cell number }
{
    let list = list_of(records, cell, number);
    list.used()
}

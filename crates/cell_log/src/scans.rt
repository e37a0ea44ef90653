ghost use Rattle.std.specs.Prelude.{◌≡◌, true, nat_le, position};
ghost use Rattle.cell_log.specs.Places.{Placed};
ghost use Rattle.model.specs.Logs.{cell_of, current};
ghost use Rattle.cell_log.specs.Rows.{ascends};

use model::Entry;
use store::Store;

// The number of a cell; 0 beyond the count.
pub fn number_at<S: Store>(store: &S, cell: u32) -> u32
    ensures { result ≡ cell_of (S.Store.cells store.now) cell }
{
    store.get(cell).unwrap_or(0)
}

// Whether the logged number still is its cell's.
pub(crate) fn is_current<S: Store>(store: &S, entry: &Entry) -> bool
    ensures { result ≡ current (S.Store.cells store.now) entry.now }
{
    number_at(store, entry.cell) == entry.number
}

// The first entry whose cell is not below this one.
fn first_from(entries: &[Entry], cell: u32) -> Option<usize>
    ensures { result ≡ position (λ e. nat_le cell e.cell) entries.now }
{
    entries.iter().position(|e| e.cell >= cell)
}

// Where the entry of a cell stands in a log, or where it would go.
pub(crate) fn place_of(entries: &[Entry], cell: u32) -> Result<usize, usize>
    requires { ascends entries.now ≡ true }
    ensures { Placed entries.now cell result }
{
    match first_from(entries, cell) {
        Some(i) if entries[i].cell == cell => Ok(i),
        Some(i) => Err(i),
        None => Err(entries.len()),
    }
}

pub(crate) fn is_ascending(entries: &[Entry]) -> bool
    ensures { result ≡ ascends entries.now }
{
    entries.is_sorted_by(|a, b| a.cell < b.cell)
}

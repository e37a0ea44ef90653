ghost use Rattle.std.specs.Prelude.{◌≡◌};

use change_list::ChangeList;
use run::intake::Intake;
use store::Store;
use store::change::Change;

// What a store is after a run in which a correction is opened, reads, writes and is withdrawn follows from the contracts
// alone: it is the very same.
pub fn withdrawn<S: Store>(store: S, cell: u32, number: u32) -> S
    ensures { result ≡ store }
{
    let mut run = Intake::new(store, 1).seal();
    if let Ok(slip) = run.open_correction() {
        let _ = run.read(&slip, cell);
        let _ = run.write(&slip, cell, number);
        let _ = run.withdraw(slip);
    }
    run.close()
}

// The list of these records once such a run is over.
fn withdrawn_over<'a>(records: &'a mut [Change], cell: u32, number: u32) -> ChangeList<'a>
    ensures records { result.records.now ≡ records.old }
    ensures loan { result.records.ghost_name ≡ records.entry.ghost_name }
    ensures none { result.used ≡ 0 }
{
    let list = ChangeList::new(records);
    withdrawn(list, cell, number)
}

// No record changes, whatever the records held.
pub fn withdrawn_records(records: &mut [Change], cell: u32, number: u32)
    ensures { records.new ≡ records.old }
{
    let _list = withdrawn_over(records, cell, number);
}

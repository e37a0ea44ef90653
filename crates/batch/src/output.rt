ghost use Rattle.std.specs.Prelude.{◌≡◌, replicate, is_ok, IfOk, Err, string_bytes};
ghost use Rattle.listing_reader.specs.Drafts.{script_in};
ghost use Rattle.model.specs.Intake.{closed_cells};
ghost use Rattle.script.specs.Faults.{outcome};
ghost use Rattle.script.specs.Scripts.{Words};
ghost use Rattle.batch.specs.Played.{Told, ToldOf};
ghost use Rattle.batch.specs.Reports.{report_text, printed, output_text, starts_in};
ghost use Rattle.batch.specs.Runs.{final_state, zeros};

use crate::reports::report_of;
use crate::running::run_fitting;
use listing_reader::read::read;
use listing_reader::room::Room;
use listing_reader::script_read::Script;
use report::FaultLine;
use script::ListingFault;
use std::alloc::{AllocError, Global};
use store::Store;
use store::word_table::WordTable;
use write_back::WriteBack;

// The number of a listing's run.
const RUN: u32 = 1;

// What is printed of a script that runs over a write-back layer. The store below comes back, with the run's cells:
// generic code cannot let go of a store.
fn report_over<S: Store>(heap: Global, below: S, script: &Script) -> (S, Result<String, AllocError>)
    requires { S.Store.cells below ≡ zeros (script_in script.now) }
    ensures text { IfOk result.1 (λ t. string_bytes t ≡ report_text (final_state (script_in script.now))) }
    ensures fit { IfOk result.1 (λ t. Words (starts_in (final_state (script_in script.now))) × Words (final_state (script_in script.now)).cells) }
    ensures cells { S.Store.cells result.0 ≡ closed_cells (final_state (script_in script.now)) }
{
    let run = run_fitting(WriteBack::new(below), RUN, script);
    let text = report_of(heap, &run);
    (run.close().into_store(), text)
}

// So many words that hold 0.
fn zero_words(heap: Global, count: u32) -> Result<Vec<u32>, AllocError>
    ensures { IfOk result (λ v. v.items ≡ replicate count 0) }
{
    vec![in heap; 0; count as usize]
}

// What is printed of a script that runs over words of its own.
fn report(heap: Global, script: &Script) -> Result<String, AllocError>
    ensures text { IfOk result (λ t. string_bytes t ≡ report_text (final_state (script_in script.now))) }
    ensures told { IfOk result (λ t. Told (script_in script.now) (string_bytes t)) }
{
    let mut words = zero_words(heap, script.count())?;
    let (_table, text) = report_over(heap, WordTable::new(words.as_mut_slice()), script);
    text
}

/// Reads a listing and runs it over words that hold 0. `Ok` is the report of its run, byte for byte; it tells which jobs
/// committed, how often each started, and the cells, and nothing else, and these cells are what the jobs leave, played one
/// by one in that order. `Err` is the line of what is wrong with the listing. Fails only for want of memory.
pub fn run_listing(heap: Global, listing: &[u8]) -> Result<Result<String, String>, AllocError>
    ensures text { IfOk result (λ o. (printed o ≡ output_text (outcome listing.now)) × (is_ok o ≡ is_ok (outcome listing.now))) }
    ensures told { IfOk result (λ o. ToldOf (outcome listing.now) (printed o)) }
{
    match read(Room::new(heap)?, listing) {
        Ok(script) => Ok(Ok(report(heap, &script)?)),
        Err(fault) => Ok(Err(fault_text(heap, fault)?)),
    }
}

// The line that is printed of a fault.
fn fault_text(heap: Global, fault: ListingFault) -> Result<String, AllocError>
    ensures { IfOk result (λ t. string_bytes t ≡ output_text (Err fault)) }
{
    let line = FaultLine::from(fault);
    format!(in heap; "{line}\n")
}

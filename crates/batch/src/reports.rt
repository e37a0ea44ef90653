ghost use Rattle.std.specs.Prelude.{◌≡◌, ℕ, ◌^◌, ◌<◌, ◌++◌, Some, IfOk, string_bytes, OnOk};
ghost use Rattle.model.specs.Intake.{cell_answer};
ghost use Rattle.model.specs.Logs.{at};
ghost use Rattle.run.specs.Runs.{state};
ghost use Rattle.script.specs.Scripts.{Words};
ghost use Rattle.batch.specs.Reports.{entry_text, order_text, has_committed, starts_in, job_text, jobs_text, answer_text, cells_text, report_text};

use model::Party;
use report::Line;
use run::run::Run;
use std::alloc::{AllocError, Global};
use store::Store;

// Text and run stay two parameters below: in a struct of both, each contract would have to say that the run stays.

// The D line of a place.
fn write_place<S: Store>(out: &mut String, run: &Run<S>, place: u32) -> Result<(), AllocError>
    ensures { OnOk result (string_bytes out.new ≡ string_bytes out.old ++ entry_text place (at (state S.Store.cells run.now).order place)) }
{
    match run.entry(place) {
        Some(Party::Job(job)) => writeln!(out, "{}", Line::Committed { place, job }),
        _ => Ok(()),
    }
}

// The D lines.
fn write_order<S: Store>(out: &mut String, run: &Run<S>) -> Result<(), AllocError>
    ensures { OnOk result (string_bytes out.new ≡ string_bytes out.old ++ order_text 1 (state S.Store.cells run.now).order) }
{
    for place in 1..=run.commits() as u32 {
        write_place(out, run, place)?;
    }
    Ok(())
}

// Whether a job stands in the commit order.
fn has_committed<S: Store>(run: &Run<S>, job: u32) -> bool
    ensures { result ≡ has_committed (state S.Store.cells run.now).order job }
{
    (1..=run.commits() as u32).any(|place| run.entry(place) == Some(Party::Job(job)))
}

// The N line of a job.
fn write_job<S: Store>(out: &mut String, run: &Run<S>, job: u32) -> Result<(), AllocError>
    ensures text { OnOk result (string_bytes out.new ≡ string_bytes out.old ++ job_text (state S.Store.cells run.now).order job (at (starts_in (state S.Store.cells run.now)) job)) }
    ensures fit { OnOk result ((n : ℕ) → at (starts_in (state S.Store.cells run.now)) job ≡ Some n → n < 2 ^ 32) }
{
    let Ok(starts) = run.starts(job) else {
        return Ok(());
    };
    let committed = has_committed(run, job);
    let line = Line::Job {
        job,
        starts,
        committed,
    };
    writeln!(out, "{line}")
}

// The N lines.
fn write_jobs<S: Store>(out: &mut String, run: &Run<S>) -> Result<(), AllocError>
    ensures text { OnOk result (string_bytes out.new ≡ string_bytes out.old ++ jobs_text (state S.Store.cells run.now).order 1 (starts_in (state S.Store.cells run.now))) }
    ensures fit { OnOk result (Words (starts_in (state S.Store.cells run.now))) }
{
    for job in 1..=run.jobs() as u32 {
        write_job(out, run, job)?;
    }
    Ok(())
}

// The C line of a cell.
fn write_cell<S: Store>(out: &mut String, run: &Run<S>, cell: u32) -> Result<(), AllocError>
    ensures { OnOk result (string_bytes out.new ≡ string_bytes out.old ++ answer_text cell (cell_answer (state S.Store.cells run.now) cell)) }
{
    match run.cell(cell) {
        Ok(number) => writeln!(out, "{}", Line::Cell { cell, number }),
        Err(_) => Ok(()),
    }
}

// The C lines.
fn write_cells<S: Store>(out: &mut String, run: &Run<S>) -> Result<(), AllocError>
    ensures text { OnOk result (string_bytes out.new ≡ string_bytes out.old ++ cells_text 0 (state S.Store.cells run.now).cells) }
    ensures fit { Words (state S.Store.cells run.now).cells }
{
    for cell in 0..run.count() as u32 {
        write_cell(out, run, cell)?;
    }
    Ok(())
}

// What is printed of a run: its order, its starts and its cells, each a number of 32 bits.
pub(crate) fn report_of<S: Store>(heap: Global, run: &Run<S>) -> Result<String, AllocError>
    ensures text { IfOk result (λ t. string_bytes t ≡ report_text (state S.Store.cells run.now)) }
    ensures starts { OnOk result (Words (starts_in (state S.Store.cells run.now))) }
    ensures cells { OnOk result (Words (state S.Store.cells run.now).cells) }
{
    let mut out = String::new(heap);
    write_order(&mut out, run)?;
    write_jobs(&mut out, run)?;
    write_cells(&mut out, run)?;
    Ok(out)
}

use crate::outputs::prints;
use report::Field;
use std::alloc::{AllocError, Global};
use std::test::Fail;

fn repeat(out: &mut String, line: &str, times: u32) -> Result<(), AllocError> {
    for _ in 0..times {
        out.push_str(line)?;
    }
    Ok(())
}

// A listing with so many jobs that only end.
fn with_jobs(heap: Global, jobs: u32) -> Result<String, AllocError> {
    let mut out = String::from_str(heap, "M          1\n")?;
    for job in 1..=jobs {
        write!(out, "J{}\nE\n", Field(job))?;
    }
    Ok(out)
}

// A listing with one job of so many steps.
fn with_steps(heap: Global, steps: u32) -> Result<String, AllocError> {
    let mut out = String::from_str(heap, "M          1\nJ          1\n")?;
    repeat(&mut out, "T\n", steps)?;
    Ok(out)
}

#[test]
fn sixteen_jobs_and_seventeen(rt: HostRuntime) -> Result<(), Fail> {
    let heap = rt.alloc();
    let mut listing = with_jobs(heap, 16)?;
    let mut output = String::new(heap);
    for job in 1..=16 {
        writeln!(output, "N{}          0          0", Field(job))?;
    }
    output.push_str("C          0          0\n")?;
    prints(&rt, heap, listing.as_bytes(), output.as_str())?;
    listing.push_str("J         17\nE\n")?;
    prints(
        &rt,
        heap,
        listing.as_bytes(),
        "!          1         34          1\n",
    )
}

#[test]
fn steps_from_24_on(rt: HostRuntime) -> Result<(), Fail> {
    let heap = rt.alloc();
    let mut listing = with_steps(heap, 24)?;
    prints(
        &rt,
        heap,
        listing.as_bytes(),
        "N          1          0          0\nC          0          0\n",
    )?;
    listing.push_str("T\n")?;
    prints(
        &rt,
        heap,
        listing.as_bytes(),
        "!          2          2          1\n",
    )?;
    listing.push_str("R          x          0\n")?;
    prints(
        &rt,
        heap,
        listing.as_bytes(),
        "!         16         28          2\n",
    )
}

#[test]
fn bytes_from_65536_on(rt: HostRuntime) -> Result<(), Fail> {
    let heap = rt.alloc();
    let mut listing = String::from_str(heap, "M          1\n")?;
    repeat(&mut listing, "C          0          9\n", 2729)?;
    listing.push_str("J          1\n")?;
    repeat(&mut listing, "T\n", 7)?;
    assert_eq!(rt; listing.len(), 65_536);
    prints(
        &rt,
        heap,
        listing.as_bytes(),
        "N          1          0          0\nC          0          9\n",
    )?;
    listing.push_str("T")?;
    prints(
        &rt,
        heap,
        listing.as_bytes(),
        "!         13          1          1\n",
    )
}

// The first and the last number of ten digits, in the first and the last cell that there can be.
#[test]
fn cells_up_to_4096(rt: HostRuntime) -> Result<(), Fail> {
    let heap = rt.alloc();
    let listing = b"M       4096\nC          0 1000000000\nC       4095 4294967295\n";
    let mut output = String::new(heap);
    for cell in 0..4096 {
        let number = match cell {
            0 => 1_000_000_000,
            4095 => u32::MAX,
            _ => 0,
        };
        writeln!(output, "C{}{}", Field(cell), Field(number))?;
    }
    prints(&rt, heap, listing, output.as_str())
}

// Each of 16 jobs commits, the last one first.
#[test]
fn sixteen_commits(rt: HostRuntime) -> Result<(), Fail> {
    let heap = rt.alloc();
    let mut listing = with_jobs(heap, 16)?;
    let mut output = String::new(heap);
    for place in 1..=16 {
        writeln!(listing, "G{}{}", Field(17 - place), Field(10_000))?;
        writeln!(output, "D{}{}", Field(place), Field(17 - place))?;
    }
    for job in 1..=16 {
        writeln!(output, "N{}          1          1", Field(job))?;
    }
    output.push_str("C          0          0\n")?;
    prints(&rt, heap, listing.as_bytes(), output.as_str())
}

// Each number of cells up to 64, with as many C lines.
#[test]
fn cells_from_1_on(rt: HostRuntime) -> Result<(), Fail> {
    let heap = rt.alloc();
    let mut output = String::new(heap);
    for count in 1..=64 {
        let mut listing = String::new(heap);
        writeln!(listing, "M{}", Field(count))?;
        for cell in 0..count {
            writeln!(listing, "C{}{}", Field(cell), Field(count - cell))?;
        }
        output.clear();
        for cell in 0..count {
            writeln!(output, "C{}{}", Field(cell), Field(count - cell))?;
        }
        prints(&rt, heap, listing.as_bytes(), output.as_str())?;
    }
    Ok(())
}

// A job of 24 steps that puts a number into 22 cells, with so many turns.
fn with_22_writes(heap: Global, number: u32, turns: u32) -> Result<String, AllocError> {
    let mut out = String::new(heap);
    writeln!(
        out,
        "M         22\nJ          1\nK          0{}",
        Field(number)
    )?;
    for cell in 0..22 {
        writeln!(out, "W{}          0", Field(cell))?;
    }
    writeln!(out, "E\nG          1{}", Field(turns))?;
    Ok(out)
}

// It takes the right in its 26th turn, and settling sets the cells. With one turn less it has not committed.
#[test]
fn steps_up_to_24_run(rt: HostRuntime) -> Result<(), Fail> {
    let heap = rt.alloc();
    let mut committed = String::from_str(
        heap,
        "D          1          1\nN          1          1          1\n",
    )?;
    let mut stopped = String::from_str(heap, "N          1          1          0\n")?;
    for cell in 0..22 {
        writeln!(committed, "C{} 4294967295", Field(cell))?;
        writeln!(stopped, "C{}          0", Field(cell))?;
    }
    let listing = with_22_writes(heap, u32::MAX, 26)?;
    prints(&rt, heap, listing.as_bytes(), committed.as_str())?;
    let listing = with_22_writes(heap, u32::MAX, 25)?;
    prints(&rt, heap, listing.as_bytes(), stopped.as_str())
}

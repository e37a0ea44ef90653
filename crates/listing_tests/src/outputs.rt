use batch::output::run_listing;
use std::alloc::Global;
use std::process::Abort;
use std::test::Fail;

// Holds a listing to what is printed of it, which begins with a `!` where the listing is refused.
pub(crate) fn prints(
    rt: &impl Abort,
    heap: Global,
    listing: &[u8],
    text: &str,
) -> Result<(), Fail> {
    let printed = run_listing(heap, listing)?;
    assert_eq!(rt; printed.is_ok(), !text.starts_with('!'));
    match printed {
        Ok(printed) | Err(printed) => assert_eq!(rt; printed.as_str(), text),
    }
    Ok(())
}

// The job reads cell 0, adds 1 and writes it back.
#[test]
fn one_adder(rt: HostRuntime) -> Result<(), Fail> {
    let listing =
        b"M          1\nC          0          7\nJ          1\nR          0          0\nK          1          1\nA          0          1\nW          0          0\nE\nG          1         10\n";
    prints(
        &rt,
        rt.alloc(),
        listing,
        "D          1          1\nN          1          1          1\nC          0          8\n",
    )
}

// Two such jobs take turns: the second starts again, and no addition is lost.
#[test]
fn two_adders(rt: HostRuntime) -> Result<(), Fail> {
    let listing =
        b"M          1\nC          0          7\nJ          1\nR          0          0\nK          1          1\nA          0          1\nW          0          0\nE\nJ          2\nR          0          0\nK          1          1\nA          0          1\nW          0          0\nE\nG          1          1\nG          2          1\nG          1          1\nG          2          1\nG          1          1\nG          2          1\nG          1          1\nG          2          1\nG          1          1\nG          2          1\nG          1          1\nG          2          1\nG          1          1\nG          2          1\nG          1          1\nG          2          1\nG          1          1\nG          2          1\nG          1          1\nG          2          1\nG          1          1\nG          2          1\nG          2          9\n";
    prints(
        &rt,
        rt.alloc(),
        listing,
        "D          1          1\nD          2          2\nN          1          1          1\nN          2          2          1\nC          0          9\n",
    )
}

// Job 1 moves 40 from cell 0 to cell 1, job 2 moves 60 back and waits while cell 1 has less.
#[test]
fn two_transfers(rt: HostRuntime) -> Result<(), Fail> {
    let listing =
        b"M          2\nC          0        100\nC          1         50\nJ          1\nR          0          0\nR          1          1\nK          2         40\nS          0          2\nA          1          2\nW          0          0\nW          1          1\nE\nJ          2\nR          0          0\nR          1          1\nK          2         60\nL          1          2         10\nA          0          2\nS          1          2\nW          0          0\nW          1          1\nE\nT\nG          2          5\nG          1         30\nG          2         40\n";
    prints(
        &rt,
        rt.alloc(),
        listing,
        "D          1          1\nD          2          2\nN          1          1          1\nN          2          2          1\nC          0        120\nC          1         30\n",
    )
}

// The turns end while the job holds the commit right: settling ends its commit.
#[test]
fn the_right_is_held_at_the_end(rt: HostRuntime) -> Result<(), Fail> {
    let listing =
        b"M          1\nC          0          7\nJ          1\nR          0          0\nK          1          1\nA          0          1\nW          0          0\nE\nG          1          9\n";
    prints(
        &rt,
        rt.alloc(),
        listing,
        "D          1          1\nN          1          1          1\nC          0          8\n",
    )
}

// A cell that is given twice, and one that is not given.
#[test]
fn the_later_preset_counts(rt: HostRuntime) -> Result<(), Fail> {
    let listing = b"M          2\nC          0          1\nC          0          2\n";
    prints(
        &rt,
        rt.alloc(),
        listing,
        "C          0          2\nC          1          0\n",
    )
}

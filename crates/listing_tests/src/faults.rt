use crate::outputs::prints;
use std::test::Fail;

// A listing and what is printed of it. A `!` line has the number, the line and the column of a fault.
#[derive(Clone, Copy)]
struct Case {
    listing: &'static [u8],
    output: &'static str,
}

const LINES: [Case; 14] = [
    // Nothing at all.
    Case {
        listing: b"",
        output: "!         15          1          1\n",
    },
    // One byte.
    Case {
        listing: b"M",
        output: "!         14          1          1\n",
    },
    // An empty line.
    Case {
        listing: b"\n",
        output: "!         14          1          1\n",
    },
    // No closing byte 10, although the letter is unknown too.
    Case {
        listing: b"X",
        output: "!         14          1          1\n",
    },
    // A letter that is no letter of a line.
    Case {
        listing: b"X\n",
        output: "!         15          1          1\n",
    },
    // No M line.
    Case {
        listing: b"C          0          1\n",
        output: "!         15          1          1\n",
    },
    // A letter out of order comes before a wrong length.
    Case {
        listing: b"M          2\nR          0\n",
        output: "!         15          2          1\n",
    },
    // A second M line.
    Case {
        listing: b"M          2\nM          2\n",
        output: "!         15          2          1\n",
    },
    // A C line after a job.
    Case {
        listing: b"M          2\nJ          1\nE\nC          0          1\n",
        output: "!         15          4          1\n",
    },
    // A step after turns.
    Case {
        listing: b"M          2\nJ          1\nE\nG          1          1\nE\n",
        output: "!         15          5          1\n",
    },
    // A step without a job.
    Case {
        listing: b"M          2\nE\n",
        output: "!         15          2          1\n",
    },
    // A field too few.
    Case {
        listing: b"M          2\nC          0\n",
        output: "!         14          2          1\n",
    },
    // CR before the closing byte.
    Case {
        listing: b"M          2\r\n",
        output: "!         14          1          1\n",
    },
    // 10 columns.
    Case {
        listing: b"M         2\n",
        output: "!         14          1          1\n",
    },
];

const FIELDS: [Case; 14] = [
    // 12 columns.
    Case {
        listing: b"M           2\n",
        output: "!         14          1          1\n",
    },
    // A leading zero.
    Case {
        listing: b"M         02\n",
        output: "!         16          1          2\n",
    },
    // A blank after the digit.
    Case {
        listing: b"M         2 \n",
        output: "!         16          1          2\n",
    },
    // A sign.
    Case {
        listing: b"M         +2\n",
        output: "!         16          1          2\n",
    },
    // Nothing but blanks.
    Case {
        listing: b"M           \n",
        output: "!         16          1          2\n",
    },
    // A byte above 127.
    Case {
        listing: b"M          \x80\n",
        output: "!         16          1          2\n",
    },
    // A byte above 127 as a letter.
    Case {
        listing: b"\xcd          2\n",
        output: "!         15          1          1\n",
    },
    // The greatest number that there is.
    Case {
        listing: b"M          2\nC          1 4294967295\n",
        output: "C          0          0\nC          1 4294967295\n",
    },
    // One more.
    Case {
        listing: b"M          2\nC          1 4294967296\n",
        output: "!         16          2         13\n",
    },
    // No cells.
    Case {
        listing: b"M          0\n",
        output: "!         17          1          2\n",
    },
    // One cell more than there may be.
    Case {
        listing: b"M       4097\n",
        output: "!         17          1          2\n",
    },
    // A cell that is not below the count.
    Case {
        listing: b"M          2\nC          2          1\n",
        output: "!          4          2          2\n",
    },
    // The first field is tested before the second is read.
    Case {
        listing: b"M          2\nC          2          x\n",
        output: "!          4          2          2\n",
    },
    // Another number than the next job has.
    Case {
        listing: b"M          2\nJ          2\n",
        output: "!         17          2          2\n",
    },
];

const JOBS: [Case; 13] = [
    // Turns for job 0.
    Case {
        listing: b"M          2\nJ          1\nE\nG          0          1\n",
        output: "!          7          4          2\n",
    },
    // Turns for a job that is not there.
    Case {
        listing: b"M          2\nJ          1\nE\nG          2          1\n",
        output: "!          7          4          2\n",
    },
    // No turns.
    Case {
        listing: b"M          2\nJ          1\nE\nG          1          0\n",
        output: "!         17          4         13\n",
    },
    // 10,001 turns.
    Case {
        listing: b"M          2\nJ          1\nE\nG          1      10001\n",
        output: "!         17          4         13\n",
    },
    // A job without steps.
    Case {
        listing: b"M          2\nJ          1\n",
        output: "!          2          2          1\n",
    },
    // A register above 7, in the first field.
    Case {
        listing: b"M          2\nJ          1\nR          8          0\nE\n",
        output: "!          3          3          2\n",
    },
    // A register above 7, in the second field.
    Case {
        listing: b"M          2\nJ          1\nW          0          8\nE\n",
        output: "!          3          3         13\n",
    },
    // A cell that is not below the count, in a step.
    Case {
        listing: b"M          2\nJ          1\nT\nR          0          2\nE\n",
        output: "!          4          4         13\n",
    },
    // A jump to its own step.
    Case {
        listing: b"M          2\nJ          1\nL          0          0          1\nE\n",
        output: "!          5          3         24\n",
    },
    // A last step that goes on.
    Case {
        listing: b"M          2\nJ          1\nK          0          1\n",
        output: "!          6          3          1\n",
    },
    // A job is not admitted: that comes before the fault of the next line.
    Case {
        listing: b"M          2\nJ          1\nK          0          1\nX\n",
        output: "!          6          3          1\n",
    },
    // A step line that is no line comes before the fault of an earlier step.
    Case {
        listing: b"M          2\nJ          1\nR          8          0\nE \n",
        output: "!         14          4          1\n",
    },
    // A step whose letter follows, without a closing byte.
    Case {
        listing: b"M          2\nJ          1\nR          8          0\nE",
        output: "!         14          4          1\n",
    },
];

// Three tests alike, over their own cases: a function for all would need the bound `Abort`, which no function here has
// but the one that compares.
#[test]
fn lines_fail(rt: HostRuntime) -> Result<(), Fail> {
    for case in &LINES {
        prints(&rt, rt.alloc(), case.listing, case.output)?;
    }
    Ok(())
}

#[test]
fn fields_fail(rt: HostRuntime) -> Result<(), Fail> {
    for case in &FIELDS {
        prints(&rt, rt.alloc(), case.listing, case.output)?;
    }
    Ok(())
}

#[test]
fn jobs_fail(rt: HostRuntime) -> Result<(), Fail> {
    for case in &JOBS {
        prints(&rt, rt.alloc(), case.listing, case.output)?;
    }
    Ok(())
}

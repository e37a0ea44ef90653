#![tactic(auto)]

ghost use Rattle.std.specs.Prelude.{◌≡◌, Some};
ghost use Rattle.report.specs.Text.{field, line_text, fault_line_text};

use std::fmt;

// What a run prints when it is over, without the closing newline.
#[derive(Clone, Copy, Debug, PartialEq)]
pub enum Line {
    // D: a place of the commit order, from 1, and the job that stands there.
    Committed {
        place: u32,
        job: u32,
    },
    // N: a job, how often it started, and whether it committed, a flag since it is printed as 1 or 0.
    Job {
        job: u32,
        starts: u32,
        committed: bool,
    },
    // C: a cell and its number.
    Cell {
        cell: u32,
        number: u32,
    },
}

// !: what is wrong with a listing, by its number, and the line and column where it stands, without the closing newline.
// A number and no enum: that of what can be wrong belongs to a crate above, and a type here would say it a second time.
#[derive(Clone, Copy, Debug, PartialEq)]
pub struct FaultLine {
    pub number: u32,
    pub line: u32,
    pub column: u32,
}

// A number in a field of 11 columns.
#[derive(Clone, Copy, Debug, PartialEq)]
pub struct Field(pub u32);

impl fmt::Display for Field {
    ghost output = { λ x. Some (field x.0) };

    fn fmt<W: fmt::Write>(&self, f: &mut fmt::Formatter<W>) -> fmt::Result {
        write!(f, "{:>11}", self.0)
    }
}

impl fmt::Display for Line {
    ghost output = { λ x. Some (line_text x) };

    fn fmt<W: fmt::Write>(&self, f: &mut fmt::Formatter<W>) -> fmt::Result {
        match *self {
            Line::Committed { place, job } => { write!(f, "D{}{}", Field(place), Field(job)) }
            Line::Job {
                job,
                starts,
                committed,
            } => {
                let committed = Field(u32::from(committed));
                write!(f, "N{}{}{committed}", Field(job), Field(starts))
            }
            Line::Cell { cell, number } => { write!(f, "C{}{}", Field(cell), Field(number)) }
        }
    }
}

impl fmt::Display for FaultLine {
    ghost output = { λ x. Some (fault_line_text x) };

    fn fmt<W: fmt::Write>(&self, f: &mut fmt::Formatter<W>) -> fmt::Result {
        let FaultLine {
            number,
            line,
            column,
        } = *self;
        write!(f, "!{}{}{}", Field(number), Field(line), Field(column))
    }
}

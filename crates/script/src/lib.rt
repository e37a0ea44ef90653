// What a listing can say: the kinds of its lines, the parts of its script, and what may be wrong with it.
#![tactic(auto)]

ghost use Rattle.std.specs.Prelude.{◌≡◌, suc, ok_or};
ghost use Rattle.script.specs.Lines.{head_of, group_of};
ghost use Rattle.script.specs.Faults.{cause_number, cause_of, in_order, fault_at, column_of, fault_line};
ghost use Rattle.script.specs.Law.{ListingLaw};
ghost use Rattle.script.specs.declared.Cause.TheVariants.{Letter};

use model::{Fault, Refusal};
use report::FaultLine;

// The kinds of lines. Each has a letter.
#[derive(Clone, Copy, Debug, PartialEq)]
pub enum Kind {
    // M: how many cells the store has.
    Size,
    // C: a cell and its number at first.
    Cell,
    // J: a job, by its number. Its steps follow.
    Job,
    // R, W, K, A, S, L, T and E: the steps.
    Read,
    Write,
    Load,
    Add,
    Subtract,
    JumpIfLess,
    Wait,
    End,
    // G: a job and its turns.
    Turns,
}

// What a line's letter says: of which kind the line is, and how many fields it has.
#[derive(Clone, Copy, Debug, PartialEq)]
pub struct Head {
    pub kind: Kind,
    pub fields: usize,
}

// The kinds as far as their order matters.
#[derive(Clone, Copy, Debug, PartialEq)]
pub enum Group {
    OfSize,
    OfCell,
    OfJob,
    OfStep,
    OfTurns,
}

// How far a listing has been read.
#[derive(Clone, Copy, Debug, PartialEq)]
pub enum Section {
    // Nothing was read.
    AtStart,
    // The size and perhaps cells.
    InCells,
    // A job, and perhaps steps of it.
    InJob,
    // A job that was admitted.
    AfterJob,
    // Turns.
    InTurns,
}

// A cell and the number that it holds before the run.
#[derive(Clone, Copy, Debug, PartialEq)]
pub struct Preset {
    pub cell: u32,
    pub number: u32,
}

// A job and how many turns it is given in a row.
#[derive(Clone, Copy, Debug, PartialEq)]
pub struct Allotment {
    pub job: u32,
    pub turns: u32,
}

// What is wrong with a listing.
#[derive(Clone, Copy, Debug, PartialEq)]
pub enum Cause {
    // More than 65,536 bytes.
    TooLong,
    // A line that is empty, of the wrong length, or without a closing byte 10.
    Shape,
    // A letter that is unknown or out of order, or no M line.
    Letter,
    // A field that is not what a 32-bit number is written as.
    NotANumber,
    // A size, a job's number or a number of turns that may not stand there.
    NotAllowed,
    // A cell that is not below the size.
    NoSuchCell,
    // Turns for a job that was not admitted.
    NoSuchJob,
    // A job that was not admitted, and why.
    Admission(Fault),
}

// What is asked of the number in a field, beside that it is one.
#[derive(Clone, Copy, Debug, PartialEq)]
pub enum Test {
    AnyNumber,
    // A store has 1 to 4,096 cells.
    CellCount,
    // A cell is below the count.
    CellBelow(u32),
    // A job has the next number.
    JobNumber(u32),
    // Turns are for one of so many jobs.
    JobUpTo(u32),
    // A job has 1 to 10,000 turns in a row.
    TurnCount,
}

// The first thing that is wrong with a listing, and where it stands. Lines and columns are counted from 1.
#[derive(Clone, Copy, Debug, PartialEq)]
pub struct ListingFault {
    pub cause: Cause,
    pub line: u32,
    pub column: u32,
}

// What a line's letter says, if it is the letter of a line.
impl TryFrom<char> for Head {
    type Error = Cause;

    ghost try_from_gives = { λ letter head. head ≡ ok_or (head_of letter) Letter };

    fn try_from(letter: char) -> Result<Head, Cause> {
        let (kind, fields) = match letter {
            'M' => (Kind::Size, 1),
            'C' => (Kind::Cell, 2),
            'J' => (Kind::Job, 1),
            'R' => (Kind::Read, 2),
            'W' => (Kind::Write, 2),
            'K' => (Kind::Load, 2),
            'A' => (Kind::Add, 2),
            'S' => (Kind::Subtract, 2),
            'L' => (Kind::JumpIfLess, 3),
            'T' => (Kind::Wait, 0),
            'E' => (Kind::End, 0),
            'G' => (Kind::Turns, 2),
            _ => return Err(Cause::Letter),
        };
        Ok(Head { kind, fields })
    }
}

impl Kind {
    pub fn group(self) -> Group
        ensures { result ≡ group_of self }
    {
        match self {
            Kind::Size => Group::OfSize,
            Kind::Cell => Group::OfCell,
            Kind::Job => Group::OfJob,
            Kind::Turns => Group::OfTurns,
            _ => Group::OfStep,
        }
    }
}

const MOST_CELLS: u32 = 4096;

const MOST_TURNS: u32 = 10_000;

impl Test {
    // What is wrong with the number, if anything. An Option and no Result: a number that passes comes to nothing else, and
    // the reader makes an Err of a cause where it knows the place.
    pub fn cause(self, number: u32) -> Option<Cause>
        ensures { result ≡ cause_of self number }
    {
        let (passes, cause) = match self {
            Test::AnyNumber => return None,
            Test::CellCount => ((1..=MOST_CELLS).contains(&number), Cause::NotAllowed),
            Test::CellBelow(count) => (number < count, Cause::NoSuchCell),
            Test::JobNumber(next) => (number == next, Cause::NotAllowed),
            Test::JobUpTo(jobs) => ((1..=jobs).contains(&number), Cause::NoSuchJob),
            Test::TurnCount => ((1..=MOST_TURNS).contains(&number), Cause::NotAllowed),
        };
        (!passes).then_some(cause)
    }
}

impl Section {
    // Whether lines of that group may come next.
    pub fn admits(self, group: Group) -> bool
        ensures { result ≡ in_order self group }
    {
        matches!(
            (self, group),
            (Section::AtStart, Group::OfSize)
                | (
                    Section::InCells,
                    Group::OfCell | Group::OfJob | Group::OfTurns
                )
                | (Section::InJob, Group::OfStep)
                | (Section::AfterJob, Group::OfJob | Group::OfTurns)
                | (Section::InTurns, Group::OfTurns)
        )
    }
}

// Every listing is accepted exactly if it is the text of a script within the bounds, and then read as that script.
pub fn law_of_listings()
    ensures { ListingLaw }
{}

// The number under which a cause is told; a refused admission has that of its refusal.
impl From<Cause> for u32 {
    ghost from_gives = { λ cause number. number ≡ cause_number cause };

    fn from(cause: Cause) -> u32 {
        match cause {
            Cause::TooLong => 13,
            Cause::Shape => 14,
            Cause::Letter => 15,
            Cause::NotANumber => 16,
            Cause::NotAllowed => 17,
            Cause::NoSuchCell => u32::from(Refusal::NoSuchCell),
            Cause::NoSuchJob => u32::from(Refusal::NoSuchJob),
            Cause::Admission(fault) => u32::from(fault.refusal),
        }
    }
}

impl ListingFault {
    // A fault of a line as a whole.
    pub fn of_line(cause: Cause, line: u32) -> ListingFault
        ensures { result ≡ fault_at cause line 1 }
    {
        ListingFault {
            cause,
            line,
            column: 1,
        }
    }

    // A fault of a field of a line, before which so many others stand there.
    pub fn of_field(cause: Cause, line: u32, before: u8) -> ListingFault
        ensures { result ≡ fault_at cause line (column_of (suc before)) }
    {
        ListingFault {
            cause,
            line,
            column: 2 + 11 * u32::from(before),
        }
    }
}

// How a fault is told.
impl From<ListingFault> for FaultLine {
    ghost from_gives = { λ fault line. line ≡ fault_line fault };

    fn from(fault: ListingFault) -> FaultLine {
        FaultLine {
            number: u32::from(fault.cause),
            line: fault.line,
            column: fault.column,
        }
    }
}

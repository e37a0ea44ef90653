#![tactic(auto)]

ghost use Rattle.std.specs.Prelude.{◌≡◌, Some};
ghost use Rattle.model.specs.Law.{Law, AdmissionSuffices, ClosingIsSerial, NoneUntilOpened, PlaysStop};
ghost use Rattle.model.specs.Names.{rule_name, refusal_number};
ghost use Rattle.model.specs.ShortRuns.{ShortRuns};
ghost use Rattle.model.specs.declared.Party.TheVariants.{Job};

use std::fmt;

// A step of a job's program, over eight 32-bit registers, numbered 0 to 7. The letters are those of a listing.
#[derive(Clone, Copy, Debug, PartialEq)]
pub enum Step {
    // R: reads the cell into the register.
    Read {
        register: u32,
        cell: u32,
    },
    // W: writes the register to the cell.
    Write {
        cell: u32,
        register: u32,
    },
    // K: puts the number into the register.
    Load {
        register: u32,
        number: u32,
    },
    // A: adds the second register to the first.
    Add {
        register: u32,
        other: u32,
    },
    // S: takes the second register from the first.
    Subtract {
        register: u32,
        other: u32,
    },
    // L: goes to that step, counted from 1, if the first register is less than the second.
    JumpIfLess {
        register: u32,
        other: u32,
        step: u32,
    },
    // T: waits.
    Wait,
    // E: ends.
    End,
}

// Where a job stands.
#[derive(Clone, Copy, Debug, PartialEq)]
pub enum Stage {
    Start,
    // At a step, by the number of steps that stand before it.
    At(u32),
    Rollback,
    Validate,
    Commit,
    Done,
}

// The rules of a turn, in their order. They are named as in Sulzmann and Chu, "A Rule-Based Specification of Software
// Transactional Memory", with p for the steps that touch registers only and rb for the return from rollback.
#[derive(Clone, Copy, Debug, PartialEq)]
pub enum Rule {
    S1,
    S2,
    S3,
    R1,
    R2,
    R3,
    W1,
    W2,
    P,
    Rt,
    Rb,
    E,
    V1,
    V2,
    V3,
    V4,
    C1,
    C2,
    C3,
}

// What a turn did: the rule, and the cell for the rules that name one.
#[derive(Clone, Copy, Debug, PartialEq)]
pub struct Applied {
    pub rule: Rule,
    pub cell: Option<u32>,
}

// An entry of a read log or a write log.
#[derive(Clone, Copy, Debug, PartialEq)]
pub struct Entry {
    pub cell: u32,
    pub number: u32,
}

// Who takes the commit right, sets cells and stands in the commit order. Jobs and corrections are numbered from 1.
#[derive(Clone, Copy, Debug, PartialEq)]
pub enum Party {
    Job(u32),
    // A correction by hand, with logs of its own.
    Correction(u32),
}

// Fills the places of a commit order that nobody has joined: no job has the number 0.
impl Default for Party {
    ghost is_default = { λ party. party ≡ Job 0 };

    fn default() -> Party {
        Party::Job(0)
    }
}

// Why a call changed nothing.
#[derive(Clone, Copy, Debug, PartialEq)]
pub enum Refusal {
    // A 17th job.
    TooManyJobs,
    // No steps, or more than 24.
    StepCount,
    // A register above 7.
    NoSuchRegister,
    // A cell not below the store's count.
    NoSuchCell,
    // A jump that names no later step of the job.
    NoLaterStep,
    // A last step that neither waits nor ends.
    LastStep,
    // Job 0, or one that was not admitted.
    NoSuchJob,
    // A ninth correction.
    TooManyCorrections,
    // A slip of another run, or of a correction that is not open.
    NotOpen,
    // A 25th cell for that log.
    LogFull,
    // A filing while a job holds the commit right.
    RightHeld,
    // A filing whose read log differs from a cell; this is the lowest.
    Changed { cell: u32 },
}

// The number under which a refusal is told.
impl From<Refusal> for u32 {
    ghost from_gives = { λ refusal number. number ≡ refusal_number refusal };

    fn from(refusal: Refusal) -> u32 {
        match refusal {
            Refusal::TooManyJobs => 1,
            Refusal::StepCount => 2,
            Refusal::NoSuchRegister => 3,
            Refusal::NoSuchCell => 4,
            Refusal::NoLaterStep => 5,
            Refusal::LastStep => 6,
            Refusal::NoSuchJob => 7,
            Refusal::TooManyCorrections => 8,
            Refusal::NotOpen => 9,
            Refusal::LogFull => 10,
            Refusal::RightHeld => 11,
            Refusal::Changed { cell: _ } => 12,
        }
    }
}

// Why a job was not admitted: the step, from 1, or 0 where no step is to blame, and the field of that step, or 0.
// The zeros stay: the definitions of the law count so, and the step is added to the line of its job as it is.
#[derive(Clone, Copy, Debug, PartialEq)]
pub struct Fault {
    pub refusal: Refusal,
    pub step: u32,
    pub field: u32,
}

impl fmt::Display for Rule {
    ghost output = { λ x. Some (rule_name x) };

    fn fmt<W: fmt::Write>(&self, f: &mut fmt::Formatter<W>) -> fmt::Result {
        f.write_str(match *self {
            Rule::S1 => "s1",
            Rule::S2 => "s2",
            Rule::S3 => "s3",
            Rule::R1 => "r1",
            Rule::R2 => "r2",
            Rule::R3 => "r3",
            Rule::W1 => "w1",
            Rule::W2 => "w2",
            Rule::P => "p",
            Rule::Rt => "rt",
            Rule::Rb => "rb",
            Rule::E => "e",
            Rule::V1 => "v1",
            Rule::V2 => "v2",
            Rule::V3 => "v3",
            Rule::V4 => "v4",
            Rule::C1 => "c1",
            Rule::C2 => "c2",
            Rule::C3 => "c3",
        })
    }
}

// The law of runs: after any list of calls on a run of admissible jobs, refused calls included, the commit order
// replayed alone gives the run's cells and readings, restarts have a cause, no one is forgotten, and answers, events and
// the order tell the same.
pub fn law_of_runs()
    ensures { Law }
{}

// What closing gives back is what the replay of the commit order leaves.
pub fn closing_is_serial()
    ensures { ClosingIsSerial }
{}

// A run that has no corrections has none until one is opened.
pub fn none_until_opened()
    ensures { NoneUntilOpened }
{}

// A replayed job comes to a step that waits or ends.
pub fn plays_stop()
    ensures { PlaysStop }
{}

// What is admitted is what the law asks of a program.
pub fn admission_suffices()
    ensures { AdmissionSuffices }
{}

// Short runs come out as their tables say.
pub fn short_runs()
    ensures { ShortRuns }
{}

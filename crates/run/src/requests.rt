use model::{Applied, Refusal};
use table::slip::SlipNumbers;

/// A call of a run, by numbers alone: any numbers may stand in place of a slip's.
#[derive(Clone, Copy, Debug, PartialEq)]
pub enum Request {
    Turn {
        job: u32,
    },
    Settle,
    Open,
    Read {
        slip: SlipNumbers,
        cell: u32,
    },
    Write {
        slip: SlipNumbers,
        cell: u32,
        number: u32,
    },
    File {
        slip: SlipNumbers,
    },
    Withdraw {
        slip: SlipNumbers,
    },
}

/// What a call answers.
#[derive(Clone, Copy, Debug, PartialEq)]
pub enum Answer {
    OfTurn(Result<Option<Applied>, Refusal>),
    OfSettling,
    OfOpening(Result<SlipNumbers, Refusal>),
    OfReading(Result<u32, Refusal>),
    /// Of a writing, a filing or a withdrawal.
    OfAcceptance(Result<(), Refusal>),
}

// Runs of jobs over any store, whose cells people correct by hand between turns.
#![tactic(auto)]

pub mod carrying;
mod correcting;
mod counts;
pub mod intake;
pub mod requests;
pub mod run;
pub mod slip;
mod turning;

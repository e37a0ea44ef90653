// Runs a listing and tells what came of it.
#![tactic(auto)]

mod admissions;
pub mod output;
mod reports;
pub mod running;
mod turns;

#![tactic(auto)]

pub mod field;

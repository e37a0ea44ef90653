// Tests of runs over every kind of store and over layers: what jobs and corrections leave, who waits and wakes, and what
// is refused.
#![tactic(auto)]

#[cfg(test)]
mod carried;
#[cfg(test)]
mod checks;
#[cfg(test)]
mod corrected;
pub mod kept;
pub mod lawful;
#[cfg(test)]
mod outcomes;
#[cfg(test)]
mod programs;
#[cfg(test)]
mod recorded;
#[cfg(test)]
mod refusals;
#[cfg(test)]
mod slips;
#[cfg(test)]
mod stores;
#[cfg(test)]
mod turns;

use model::{Applied, Rule};
use run::run::Run;
use store::Store;

// More turns than any run here needs.
const MOST_TURNS: u32 = 2000;

// Gives a job turns until it has none to take, and tells how many applied a rule.
pub(crate) fn settled_turns<S: Store>(run: &mut Run<S>, job: u32) -> u32 {
    turns(run, job, MOST_TURNS)
}

// Gives a job at most so many turns, and tells how many applied a rule.
pub(crate) fn turns<S: Store>(run: &mut Run<S>, job: u32, most: u32) -> u32 {
    let stop = (0..most).find(|_| !matches!(run.turn(job), Ok(Some(_))));
    stop.unwrap_or(most)
}

// Gives a job turns until it takes the right.
pub(crate) fn takes_right<S: Store>(run: &mut Run<S>, job: u32) -> bool {
    (0..MOST_TURNS).any(|_| matches!(run.turn(job), Ok(Some(Applied { rule: Rule::V3, .. }))))
}

use model::Refusal;
use std::io;

// How many kinds of refusals a call may answer.
const REFUSALS: usize = 12;

// What was tried, and how often the library and the serial replay disagreed.
#[derive(Drop)]
pub(crate) struct Tally {
    pub(crate) runs: u64,
    pub(crate) turns: u64,
    pub(crate) corrections: u64,
    pub(crate) commits: u64,
    pub(crate) restarts: u64,
    refusals: [u64; REFUSALS],
    pub(crate) disagreements: u64,
}

impl Tally {
    pub(crate) fn new() -> Tally {
        Tally {
            runs: 0,
            turns: 0,
            corrections: 0,
            commits: 0,
            restarts: 0,
            refusals: [0; REFUSALS],
            disagreements: 0,
        }
    }

    // Counts a refusal under its number.
    pub(crate) fn refused(&mut self, refusal: Refusal) {
        let place = (u32::from(refusal) as usize).checked_sub(1);
        if let Some(count) = place.and_then(|place| self.refusals.get_mut(place)) {
            *count = count.wrapping_add(1);
        }
    }

    // Counts a disagreement, unless the two agree.
    pub(crate) fn expect(&mut self, agrees: bool) {
        if !agrees {
            self.disagreements = self.disagreements.wrapping_add(1);
        }
    }

    pub(crate) fn print(&self, rt: &impl Print) -> io::Result<()> {
        println!(rt; "runs tried     {:>10}", self.runs)?;
        println!(rt; "turns          {:>10}", self.turns)?;
        println!(rt; "corrections    {:>10}", self.corrections)?;
        println!(rt; "commits        {:>10}", self.commits)?;
        println!(rt; "restarts       {:>10}", self.restarts)?;
        for (i, count) in self.refusals.iter().enumerate() {
            let number = i as u32 + 1;
            println!(rt; "refused by {number:>2}  {count:>10}")?;
        }
        println!(rt; "disagreements  {:>10}", self.disagreements)
    }
}

// Runs the listing on standard input as often as its argument says, in one process, so that the cost of turns can be
// measured (bench/compare.sh does). It prints how often jobs started and cells were set, in all runs.
#![tactic(auto)]

use anyhow::anyhow;
use batch::running::{OtherCount, run_script};
use listing_reader::read::{MOST_BYTES, read};
use listing_reader::room::Room;
use listing_reader::script_read::Script;
use std::env;
use std::io::Read;
use store::word_table::WordTable;
use write_back::WriteBack;

// What happened in some runs.
#[derive(Clone, Copy)]
struct Counts {
    starts: u64,
    settings: u64,
}

impl Counts {
    fn add(&mut self, more: Counts) {
        self.starts = self.starts.wrapping_add(more.starts);
        self.settings = self.settings.wrapping_add(more.settings);
    }
}

// One run, over a write-back layer on words that hold 0, of which there are as many as the script says.
fn run_once(words: &mut [u32], script: &Script) -> anyhow::Result<Counts> {
    words.fill(0);
    match run_script(WriteBack::new(WordTable::new(words)), 1, script) {
        Ok(run) => {
            let mut starts: u64 = 0;
            for job in 1..=run.jobs() as u32 {
                starts = starts.wrapping_add(u64::from(run.starts(job).unwrap_or(0)));
            }
            let settings = u64::from(run.settings());
            let _table = run.close().into_store();
            Ok(Counts { starts, settings })
        }
        Err(OtherCount { store }) => {
            let _table = store.into_store();
            Err(anyhow!("the script is for another number of cells"))
        }
    }
}

fn main(rt: HostRuntime) -> anyhow::Result<()> {
    let heap = rt.alloc();
    let mut args = env::args(&rt)?;
    let _program = args.next();
    let times: u32 = match args.next() {
        Some(word) => word.as_str().parse()?,
        None => 1,
    };
    let mut listing = Vec::new(heap);
    rt.stdin()
        .take(MOST_BYTES as u64 + 1)
        .read_to_end(&mut listing)?;
    let Ok(script) = read(Room::new(heap)?, listing.as_slice()) else {
        return Err(anyhow!("the listing is at fault: factrun says where"));
    };
    let mut words = vec![in heap; 0; script.count() as usize]?;
    let mut all = Counts {
        starts: 0,
        settings: 0,
    };
    for _ in 0..times {
        all.add(run_once(words.as_mut_slice(), &script)?);
    }
    let Counts { starts, settings } = all;
    println!(rt; "{times} runs: jobs started {starts} times, and cells were set {settings} times")?;
    Ok(())
}

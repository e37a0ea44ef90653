// Tries the library over every kind of store against a serial replay of its own: every mixture of the first turns of
// small runs, and long runs by chance. It prints what was tried, and how often the two disagreed. With the word `few` it
// tries less, which is enough to be run without proofs.
#![tactic(auto)]

ghost use Rattle.std.specs.Prelude.{◌≤◌};

mod admissions;
mod bounds;
mod chance;
mod corrections;
mod mixtures;
mod programs;
mod random;
mod replay;
mod tally;
mod trial;

use bounds::CELLS;
use change_list::ChangeList;
use mixtures::MixedTurns;
use std::env;
use std::process::ExitCode;
use store::Store;
use store::change::Change;
use store::word_table::WordTable;
use tally::Tally;
use write_back::WriteBack;

// What is tried over one store.
#[derive(Clone, Copy)]
enum Part {
    // Admissions and small runs, over two cells.
    Small(MixedTurns),
    // So many long runs, over all cells.
    Long(u64),
}

const ALL: [Part; 2] = [
    Part::Small(MixedTurns {
        of_two: 16,
        of_two_corrected: 8,
        of_three: 9,
        of_three_corrected: 5,
    }),
    Part::Long(400),
];

const FEW: [Part; 2] = [
    Part::Small(MixedTurns {
        of_two: 5,
        of_two_corrected: 5,
        of_three: 3,
        of_three_corrected: 1,
    }),
    Part::Long(4),
];

impl Part {
    fn cells(self) -> usize
        ensures { result ≤ 40 }
    {
        match self {
            Part::Small(_) => 2,
            Part::Long(_) => CELLS,
        }
    }

    fn over<S: Store>(self, store: S, tally: &mut Tally) -> S {
        match self {
            Part::Small(mixed) => {
                mixtures::mixtures(admissions::admissions(store, tally), mixed, tally)
            }
            Part::Long(runs) => chance::long_runs(store, runs, tally),
        }
    }
}

// Takes a layer apart. The store below then has the layer's cells.
fn take_apart<S: Store>(layer: WriteBack<S>, tally: &mut Tally) -> S {
    let mut cells = [None; CELLS];
    for (cell, number) in (0u32..).zip(cells.iter_mut()) {
        *number = layer.get(cell);
    }
    let store = layer.into_store();
    let mut kept = (0u32..).zip(cells.iter());
    tally.expect(kept.all(|(cell, number)| store.get(cell) == *number));
    store
}

// A part over every kind of store, and over layers.
fn over_every_store(part: Part, tally: &mut Tally) {
    let cells = part.cells();
    let mut words = [0; CELLS];
    part.over(WordTable::new(&mut words[..cells]), tally);
    let mut records = [Change::default(); CELLS + 1];
    part.over(ChangeList::new(&mut records[..cells + 1]), tally);
    let mut words = [0; CELLS];
    let table = WordTable::new(&mut words[..cells]);
    let layers = part.over(WriteBack::new(WriteBack::new(table)), tally);
    let layer = take_apart(layers, tally);
    take_apart(layer, tally);
    let mut records = [Change::default(); CELLS + 1];
    let list = ChangeList::new(&mut records[..cells + 1]);
    let layer = part.over(WriteBack::new(list), tally);
    take_apart(layer, tally);
}

fn main(rt: HostRuntime) -> anyhow::Result<ExitCode> {
    let mut args = env::args(&rt)?;
    let _program = args.next();
    let parts = match args.next() {
        Some(word) if word.as_str() == "few" => FEW,
        _ => ALL,
    };
    let mut tally = Tally::new();
    for part in &parts {
        over_every_store(*part, &mut tally);
    }
    tally.print(&rt)?;
    if tally.disagreements == 0 {
        Ok(ExitCode::SUCCESS)
    } else {
        Ok(ExitCode::FAILURE)
    }
}

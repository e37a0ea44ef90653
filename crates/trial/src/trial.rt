use crate::bounds::{CELLS, MOST_CORRECTIONS, MOST_JOBS, RUN};
use crate::corrections::Correction;
use crate::replay::{Ending, Numbers, Player};
use crate::tally::Tally;
use arrayvec::ArrayVec;
use job::program::Program;
use model::{Applied, Party, Refusal, Rule};
use run::intake::Intake;
use run::run::Run;
use run::slip::{Slip, Unfiled};
use store::Store;

// More turns than a job can use that nobody disturbs.
const MOST_TURNS: usize = 400;

// A running run, and beside it what a serial replay makes of its commit order. Each call is checked after it is made.
pub(crate) struct Trial<'a, S: Store> {
    run: Run<S>,
    tally: &'a mut Tally,
    programs: &'a [Program],
    // How many cells there are.
    count: u32,
    player: Player,
    // How many entries of the commit order were played, and how many cells these set.
    played: u32,
    cells_set: usize,
    corrections: ArrayVec<Correction, MOST_CORRECTIONS>,
    // The job that holds the commit right.
    right: Option<u32>,
    starts: [u32; MOST_JOBS],
}

impl<'a, S: Store> Trial<'a, S> {
    // A run of these programs over the store, whose cells hold these numbers first.
    pub(crate) fn new(
        mut store: S,
        programs: &'a [Program],
        cells: &[u32],
        tally: &'a mut Tally,
    ) -> Trial<'a, S> {
        let mut first = Numbers::new();
        let mut count = 0u32;
        for (cell, number) in (0u32..).zip(cells.iter()) {
            tally.expect(store.set(cell, *number));
            first.put(cell, *number);
            count = count.wrapping_add(1);
        }
        Trial {
            run: sealed(store, programs, tally),
            tally,
            programs,
            count,
            player: Player::new(first),
            played: 0,
            cells_set: 0,
            corrections: ArrayVec::new(),
            right: None,
            starts: [0; MOST_JOBS],
        }
    }

    // Gives a job a turn, and answers whether a rule applied.
    pub(crate) fn turn(&mut self, job: u32) -> bool {
        let known = job > 0 && job as usize <= self.programs.len();
        self.tally.turns = self.tally.turns.wrapping_add(1);
        match self.run.turn(job) {
            Ok(applied) => {
                self.tally.expect(known);
                let joins = self.note_rule(job, applied);
                self.check(joins);
                applied.is_some()
            }
            Err(refusal) => {
                self.tally.expect(!known && refusal == Refusal::NoSuchJob);
                self.after_call(Some(refusal));
                false
            }
        }
    }

    // Keeps who has started and who holds the right. Answers who joins the commit order.
    fn note_rule(&mut self, job: u32, applied: Option<Applied>) -> Option<Party> {
        match applied?.rule {
            Rule::S3 => {
                let place = (job as usize).wrapping_sub(1);
                if let Some(starts) = self.starts.get_mut(place) {
                    *starts = starts.wrapping_add(1);
                }
                None
            }
            Rule::V3 => {
                self.tally.expect(self.right.is_none());
                self.right = Some(job);
                None
            }
            Rule::C3 => {
                self.tally.expect(self.right == Some(job));
                self.right = None;
                Some(Party::Job(job))
            }
            _ => None,
        }
    }

    pub(crate) fn settle(&mut self) {
        let joins = self.right.take().map(Party::Job);
        self.run.settle();
        self.check(joins);
    }

    // Counts a refusal, if there was one, and checks what a call has left that adds nothing to the commit order.
    fn after_call(&mut self, refusal: Option<Refusal>) {
        if let Some(refusal) = refusal {
            self.tally.refused(refusal);
        }
        self.check(None);
    }

    // Plays who has joined the commit order, which is to be this party, or nobody. While the right is free, cells and
    // counters are what the play leaves.
    fn check(&mut self, joins: Option<Party>) {
        let next = self.played.wrapping_add(1);
        self.tally.expect(self.run.entry(next) == joins);
        if let Some(party) = joins {
            self.play(party);
            self.played = next;
        }
        self.tally
            .expect(self.run.commits() == self.played as usize);
        if self.right.is_none() {
            self.check_cells();
        }
    }

    fn check_cells(&mut self) {
        let cells = (0..self.count).all(|cell| self.run.cell(cell).ok()
            == self.player.cells.get(cell));
        self.tally
            .expect(cells && self.run.count() == self.count as usize);
        self.tally.expect(self.run.takings() == self.played);
        self.tally
            .expect(self.run.settings() as usize == self.cells_set);
    }

    // Plays one entry of the commit order: it ends, and reads what it was answered.
    fn play(&mut self, party: Party) {
        let ending = match party {
            Party::Job(job) => self.play_job(job),
            Party::Correction(correction) => self.play_correction(correction),
        };
        match ending {
            Some(Ending::Ends(set)) => self.cells_set = self.cells_set.wrapping_add(set),
            _ => self.tally.expect(false),
        }
        self.tally.commits = self.tally.commits.wrapping_add(1);
    }

    fn play_correction(&mut self, correction: u32) -> Option<Ending> {
        let correction = self.corrections.get((correction as usize).wrapping_sub(1))?;
        self.player.correction(correction.accesses()?)
    }

    fn play_job(&mut self, job: u32) -> Option<Ending> {
        let program = self.programs.get((job as usize).wrapping_sub(1))?;
        Some(self.player.job(program.steps()))
    }
}

// The run of these programs. Each is admitted under the next number.
fn sealed<S: Store>(store: S, programs: &[Program], tally: &mut Tally) -> Run<S> {
    let mut intake = Intake::new(store, RUN);
    for (job, program) in (1u32..).zip(programs.iter()) {
        tally.expect(intake.admit(program.steps()) == Ok(job));
    }
    intake.seal()
}

// Calls with a slip.
impl<'a, S: Store> Trial<'a, S> {
    // Opens a correction, if there is room for one more.
    pub(crate) fn open(&mut self) -> Option<Slip> {
        let fits = self.corrections.try_push(Correction::new()).is_ok();
        match self.run.open_correction() {
            Ok(slip) => {
                let next = self.corrections.len() as u32;
                self.tally
                    .expect(fits && slip.run() == RUN && slip.correction() == next);
                self.tally.corrections = self.tally.corrections.wrapping_add(1);
                self.after_call(None);
                Some(slip)
            }
            Err(refusal) => {
                self.tally
                    .expect(!fits && refusal == Refusal::TooManyCorrections);
                self.after_call(Some(refusal));
                None
            }
        }
    }

    // The correction that a slip stands for, if it is open.
    fn correction(&mut self, slip: &Slip) -> Result<&mut Correction, Refusal> {
        let place = (slip.correction() as usize).wrapping_sub(1);
        if slip.run() != RUN {
            return Err(Refusal::NotOpen);
        }
        match self.corrections.get_mut(place) {
            Some(correction) if correction.is_open => Ok(correction),
            _ => Err(Refusal::NotOpen),
        }
    }

    // The number of a cell, which only the run can tell while a commit is under way.
    fn stored(&self, cell: u32) -> Result<u32, Refusal> {
        if cell >= self.count {
            return Err(Refusal::NoSuchCell);
        }
        self.run.cell(cell)
    }

    pub(crate) fn read(&mut self, slip: &Slip, cell: u32) {
        let stored = self.stored(cell);
        let expected = self
            .correction(slip)
            .and_then(|open| open.read(cell, stored));
        let answer = self.run.read(slip, cell);
        self.tally.expect(answer == expected);
        self.after_call(answer.err());
    }

    pub(crate) fn write(&mut self, slip: &Slip, cell: u32, number: u32) {
        let stored = self.stored(cell);
        let expected = self
            .correction(slip)
            .and_then(|open| open.write(cell, number, stored));
        let answer = self.run.write(slip, cell, number);
        self.tally.expect(answer == expected);
        self.after_call(answer.err());
    }

    // What filing is to answer.
    fn filing(&mut self, slip: &Slip) -> Result<(), Refusal> {
        let right = self.right;
        let cells = self.player.cells;
        let correction = self.correction(slip)?;
        if right.is_some() {
            return Err(Refusal::RightHeld);
        }
        let changed = (0..CELLS as u32).find(|cell| {
            let read = correction.reads.get(*cell);
            read.is_some() && read != cells.get(*cell)
        });
        changed.map_or(Ok(()), |cell| Err(Refusal::Changed { cell }))
    }

    // Files a correction, which joins the commit order. Refused, the slip comes back.
    pub(crate) fn file(&mut self, slip: Slip) -> Option<Slip> {
        let party = Party::Correction(slip.correction());
        let expected = self.filing(&slip);
        if expected.is_ok() {
            let _ = self.close_correction(&slip);
        }
        match self.run.file(slip) {
            Ok(()) => {
                self.tally.expect(expected == Ok(()));
                self.check(Some(party));
                None
            }
            Err(Unfiled { slip, refusal }) => {
                self.tally.expect(expected == Err(refusal));
                self.after_call(Some(refusal));
                Some(slip)
            }
        }
    }

    // Withdraws a correction, which spends the slip in any case.
    pub(crate) fn withdraw(&mut self, slip: Slip) {
        let expected = self.close_correction(&slip);
        let answer = self.run.withdraw(slip);
        self.tally.expect(answer == expected);
        self.after_call(answer.err());
    }

    fn close_correction(&mut self, slip: &Slip) -> Result<(), Refusal> {
        let correction = self.correction(slip)?;
        correction.is_open = false;
        Ok(())
    }
}

// The end of a run.
impl<'a, S: Store> Trial<'a, S> {
    // Gives all jobs turns until none has a rule that fits. A commit may wake a job, so there are as many rounds as jobs,
    // and one more.
    pub(crate) fn finish(&mut self) {
        self.settle();
        self.tally.expect(self.run.jobs() == self.programs.len());
        for _ in 0..=self.programs.len() {
            self.drive_all();
        }
        self.check_waiting();
        self.check_starts();
    }

    // Leaves the run as it is. A job that is in the midst of its commit is played, since closing lets it end.
    pub(crate) fn break_off(&mut self) {
        self.check_starts();
        if let Some(job) = self.right {
            self.play(Party::Job(job));
        }
    }

    fn drive_all(&mut self) {
        let programs = self.programs;
        for (job, _) in (1u32..).zip(programs.iter()) {
            self.drive(job);
        }
    }

    // Gives a job turns until no rule fits, which is soon.
    fn drive(&mut self, job: u32) {
        for _ in 0..MOST_TURNS {
            if !self.turn(job) {
                return;
            }
        }
        self.tally.expect(false);
    }

    // A job that has not committed waits when it is played alone on the cells.
    fn check_waiting(&mut self) {
        let programs = self.programs;
        for (job, program) in (1u32..).zip(programs.iter()) {
            let done = (1..=self.played).any(|place| self.run.entry(place)
                == Some(Party::Job(job)));
            let mut player = self.player;
            self.tally
                .expect(done || player.job(program.steps()) == Ending::Waits);
        }
    }

    // A job has started as often as it was seen to, and restarts have a cause.
    fn check_starts(&mut self) {
        let causes = self.run.takings().wrapping_add(self.run.settings());
        for (job, starts) in (1u32..).zip(self.starts.iter().take(self.programs.len())) {
            self.tally.expect(self.run.starts(job) == Ok(*starts));
            self.tally.expect(*starts <= causes.wrapping_add(1));
            self.tally.restarts = self
                .tally
                .restarts
                .wrapping_add(starts.saturating_sub(1) as u64);
        }
    }

    // Closes the run. The store that comes back holds what the play leaves.
    pub(crate) fn close(self) -> S {
        let Trial {
            run,
            tally,
            programs: _,
            count,
            player,
            played: _,
            cells_set: _,
            corrections: _,
            right: _,
            starts: _,
        } = self;
        let store = run.close();
        tally.expect((0..count).all(|cell| store.get(cell) == player.cells.get(cell)));
        tally.runs = tally.runs.wrapping_add(1);
        store
    }
}

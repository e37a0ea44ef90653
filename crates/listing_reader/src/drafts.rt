ghost use Rattle.std.specs.Prelude.{◌≡◌, suc, ◌≤◌};
ghost use Rattle.script.specs.Faults.{nothing_read};
ghost use Rattle.listing_reader.specs.Drafts.{progress_of};
ghost use Rattle.listing_reader.specs.Entries.{with_entry};

use crate::draft::Draft;
use crate::entry::Entry;
use crate::room::Room;
use script::Section;

impl Draft {
    pub(crate) fn new(room: Room) -> Draft
        ensures nothing { progress_of result ≡ nothing_read }
        ensures first { result.line ≡ 1 }
    {
        let Room { lists, steps } = room;
        Draft {
            section: Section::AtStart,
            count: 0,
            lists,
            job_line: 0,
            steps,
            line: 1,
        }
    }

    // Takes in what the next line says.
    pub(crate) fn add(&mut self, entry: Entry)
        requires short { self.old.line ≤ 32768 }
        ensures read { progress_of self.new ≡ with_entry (progress_of self.old) self.old.line entry }
        ensures next { self.new.line ≡ suc self.old.line }
    {
        let line = self.line;
        self.line += 1;
        match entry {
            Entry::Size(count) => {
                self.count = count;
                self.section = Section::InCells;
            }
            Entry::Preset(preset) => {
                self.lists.presets.push_reserved(preset);
                self.section = Section::InCells;
            }
            Entry::Job => {
                self.job_line = line;
                self.steps.clear();
                self.section = Section::InJob;
            }
            Entry::Step(step) => {
                self.steps.push_reserved(step);
                self.section = Section::InJob;
            }
            Entry::Turns(allotment) => {
                self.lists.turns.push_reserved(allotment);
                self.section = Section::InTurns;
            }
        }
    }
}

ghost use Rattle.std.specs.Prelude.{◌≡◌, map};
ghost use Rattle.listing_reader.specs.Drafts.{steps_in, script_in};

use crate::script_read::Script;
use job::program::Program;
use script::{Allotment, Preset};

impl Script {
    // How many cells the store has.
    pub fn count(&self) -> u32
        ensures { result ≡ (script_in self.now).count }
    {
        self.count
    }

    // What some cells hold at first; a later preset of a cell counts before an earlier one.
    pub fn presets(&self) -> &[Preset]
        ensures { result.now ≡ (script_in self.now).presets }
    {
        self.lists.presets.as_slice()
    }

    pub fn jobs(&self) -> &[Program]
        ensures { map steps_in result.now ≡ (script_in self.now).jobs }
    {
        self.lists.jobs.as_slice()
    }

    // Who has turns, and how many in a row.
    pub fn turns(&self) -> &[Allotment]
        ensures { result.now ≡ (script_in self.now).turns }
    {
        self.lists.turns.as_slice()
    }
}

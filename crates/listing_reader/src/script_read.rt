ghost use Rattle.script.specs.Scripts.{Within};
ghost use Rattle.script.proofs.Facts.{within_fact};
ghost use Rattle.listing_reader.specs.Programs.{script_with};

use crate::lists::Lists;

// What a listing says. Only reading one makes it.
#[derive(Drop)]
pub struct Script {
    pub(crate) count: u32,
    pub(crate) lists: Lists,
    ghost within: { Within (script_with count lists) } by { within_fact _ },
}

ghost use Rattle.std.specs.Prelude.{◌≡◌, ℕ, ◌<◌, ◌≤◌, [], length};
ghost use Rattle.script.specs.Faults.{read_lines, outcome};
ghost use Rattle.script.specs.Law.{Exactly};
ghost use Rattle.listing_reader.specs.Drafts.{progress_of, finished_as, read_as, is_step_letter};
ghost use Rattle.listing_reader.specs.Taking.{LineTaken};

use crate::draft::Draft;
use crate::place::Place;
use crate::reader::Reader;
use crate::room::Room;
use crate::script_read::Script;
use script::{Cause, Group, Head, ListingFault, Section};

/// How many bytes a listing may have.
pub const MOST_BYTES: usize = 65_536;

// Whether a letter is that of a step.
fn is_step(letter: Option<char>) -> bool
    ensures { result ≡ is_step_letter letter }
{
    letter.is_some_and(|letter| {
        Head::try_from(letter).is_ok_and(|head| head.kind.group() == Group::OfStep)
    })
}

impl Draft {
    // Takes in the next line. A job whose steps end before it is admitted first.
    fn take_line(&mut self, reader: &mut Reader) -> Result<(), ListingFault>
        requires more { reader.old.place.at < length reader.old.bytes.now }
        requires line { reader.old.place.line ≡ self.old.line }
        requires short { self.old.line ≤ 32768 }
        ensures taken { LineTaken reader.old.bytes.now reader.old.place reader.new.place self.old self.new result }
        ensures bytes { reader.new.bytes.now ≡ reader.old.bytes.now }
    {
        let step_follows = is_step(reader.peek_letter());
        self.admit_before(step_follows)?;
        let content = reader.next_line(self.section)?;
        let entry = self.entry(content)?;
        self.add(entry);
        Ok(())
    }

    // The draft, now that the listing is over.
    fn finish(mut self) -> Result<Draft, ListingFault>
        ensures { (line : ℕ) → finished_as result ≡ read_lines (progress_of self) line [] }
    {
        self.admit_before(false)?;
        match self.section {
            Section::AtStart => Err(ListingFault::of_line(Cause::Letter, 1)),
            _ => Ok(self),
        }
    }
}

// Reads a listing: its script, or its first fault.
pub fn read(room: Room, listing: &[u8]) -> Result<Script, ListingFault>
    ensures outcome { read_as result ≡ outcome listing.now }
    ensures exact { Exactly listing.now (read_as result) }
{
    if listing.len() > MOST_BYTES {
        return Err(ListingFault::of_line(Cause::TooLong, 1));
    }
    let mut draft = Draft::new(room);
    let mut reader = Reader {
        bytes: listing,
        place: Place { at: 0, line: 1 },
    };
    // A loop and no iterator of lines, which would need the draft: how a line is read depends on the section that the
    // lines before it left there.
    while reader.place.at < listing.len() {
        draft.take_line(&mut reader)?;
    }
    let Draft { count, lists, .. } = draft.finish()?;
    Ok(Script { count, lists })
}

ghost use Rattle.std.specs.Prelude.{◌≡◌, ◌<◌, length};
ghost use Rattle.listing_reader.specs.Heads.{Headed, LineRead};

use crate::line::Line;
use crate::lines::line_of;
use crate::reader::Reader;
use script::{Cause, Head, ListingFault, Section};

// The line that these bytes are, by its letter and its length, if it may come next.
fn line_from<'a>(bytes: &'a [u8], section: Section, number: u32) -> Result<Line<'a>, ListingFault>
    ensures { Headed bytes.now section number result }
{
    let shape = ListingFault::of_line(Cause::Shape, number);
    let (&letter, fields) = bytes.split_first().ok_or(shape)?;
    match Head::try_from(char::from(letter)) {
        Ok(head) if section.admits(head.kind.group()) => line_of(head, fields).ok_or(shape),
        _ => Err(ListingFault::of_line(Cause::Letter, number)),
    }
}

impl<'a> Reader<'a> {
    // The next line. The place moves past it.
    pub(crate) fn next_line(&mut self, section: Section) -> Result<Line<'a>, ListingFault>
        requires { (self.old.place.at < length self.old.bytes.now) × (self.old.place.line < 65537) }
        ensures read { LineRead self.old.bytes.now self.old.place self.new.place section result }
        ensures bytes { self.new.bytes.now ≡ self.old.bytes.now }
    {
        let number = self.place.line;
        let unclosed = ListingFault::of_line(Cause::Shape, number);
        let bytes = self.next_bytes().ok_or(unclosed)?;
        line_from(bytes, section, number)
    }
}

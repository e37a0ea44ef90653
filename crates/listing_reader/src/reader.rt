ghost use Rattle.std.specs.Prelude.{◌≡◌, suc, ◌+◌, ◌<◌, length, IfSome, MatchOption, if◌then◌else◌, Some, None, nat_lt, slice_index};
ghost use Rattle.listing_reader.specs.Ends.{end_of, Split};

use crate::place::Place;

const LINE_END: u8 = 10;

// Reads a listing line by line.
#[derive(Drop)]
pub struct Reader<'a> {
    pub(crate) bytes: &'a [u8],
    pub(crate) place: Place,
}

// Puts the old place back when it ends.
struct PlaceGuard<'p> {
    place: &'p mut Place,
    old: Place,
}

impl Drop for PlaceGuard<'_> {
    fn drop(self)
        ensures { self.exit.0.now ≡ self.entry.old }
    {
        *self.place = self.old;
        let PlaceGuard { place: _, old: _ } = self;
    }
}

// The byte at the place, which moves past it. Where none is left, it stays.
fn next_byte(bytes: &[u8], place: &mut Place) -> Option<u8>
    ensures byte { result ≡ (if nat_lt place.old.at (length bytes.now) then Some (slice_index bytes.now place.old.at) else None) }
    ensures moves { MatchOption result (place.new.at ≡ place.old.at) (λ byte. place.new.at ≡ suc place.old.at) }
    ensures line { place.new.line ≡ place.old.line }
{
    let byte = bytes.get(place.at).copied()?;
    place.at += 1;
    Some(byte)
}

// How many bytes stand before the first byte 10.
fn line_end(bytes: &[u8]) -> Option<usize>
    ensures value { result ≡ end_of bytes.now }
    ensures within { IfSome result (λ i. i < length bytes.now) }
{
    bytes.iter().position(|&byte| byte == LINE_END)
}

impl<'a> Reader<'a> {
    // The letter of the next line. The place is put back on every way out, by a guard: one letter is read as any other is,
    // with the place moving past it.
    pub(crate) fn peek_letter(&mut self) -> Option<char>
        ensures place { self.new.place ≡ self.old.place }
        ensures bytes { self.new.bytes.now ≡ self.old.bytes.now }
        ensures letter { result ≡ (if nat_lt self.old.place.at (length self.old.bytes.now) then Some (slice_index self.old.bytes.now self.old.place.at) else None) }
    {
        let bytes = self.bytes;
        let old = self.place;
        let guard = PlaceGuard {
            place: &mut self.place,
            old,
        };
        let byte = next_byte(bytes, guard.place)?;
        Some(char::from(byte))
    }

    // The bytes of the next line, without the closing byte 10, if it has one. The place moves past it.
    // That more bytes follow is asked of each caller: no type keeps it, since at the end of a listing it fails.
    pub(crate) fn next_bytes(&mut self) -> Option<&'a [u8]>
        requires { (self.old.place.at < length self.old.bytes.now) × (self.old.place.line < 65537) }
        ensures split { Split self.old.bytes.now self.old.place self.new.place result }
        ensures bytes { self.new.bytes.now ≡ self.old.bytes.now }
    {
        let bytes = self.bytes;
        let at = self.place.at;
        let line = self.place.line;
        let len = line_end(&bytes[at..])?;
        self.place = Place {
            at: at + len + 1,
            line: line + 1,
        };
        Some(&bytes[at..at + len])
    }
}

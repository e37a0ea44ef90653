// A line of a listing: its kind, with its fields as parts of the listing.
#[derive(Clone, Copy)]
pub enum Line<'a> {
    Size(&'a [u8]),
    Cell(&'a [u8], &'a [u8]),
    Job(&'a [u8]),
    Read(&'a [u8], &'a [u8]),
    Write(&'a [u8], &'a [u8]),
    Load(&'a [u8], &'a [u8]),
    Add(&'a [u8], &'a [u8]),
    Subtract(&'a [u8], &'a [u8]),
    JumpIfLess(&'a [u8], &'a [u8], &'a [u8]),
    Wait,
    End,
    Turns(&'a [u8], &'a [u8]),
}

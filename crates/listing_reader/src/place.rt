// Where a reader stands: how many bytes stand before it, and the number of the next line, from 1.
#[derive(Clone, Copy)]
pub struct Place {
    pub(crate) at: usize,
    pub(crate) line: u32,
}

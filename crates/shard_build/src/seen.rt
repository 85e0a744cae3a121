/// A name that occurs in the current file: its first eight bytes as a number, and its place among the names.
#[derive(Clone, Copy)]
pub(crate) struct Seen {
    pub(crate) head: u64,
    pub(crate) number: usize,
}

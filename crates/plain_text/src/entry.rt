/// A word: its address, and where its bytes end. They begin where those of the word before end.
#[derive(Clone, Copy)]
pub struct Entry {
    pub address: u64,
    pub end: usize,
}

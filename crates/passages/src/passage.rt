/// The bytes that an answer covers: the place of the first byte, and the place after the last.
#[derive(Clone, Copy, Debug, PartialEq, Eq)]
pub struct Passage {
    pub from: usize,
    pub to: usize,
}

/// Where the text of a line is, and where the next line begins.
///
/// The text is the bytes `from` to `to - 1`; of a long line both are the place at which the line begins. `after` is
/// the place after the line's newline, or the end of the bytes if it has none.
#[derive(Clone, Copy, Debug, PartialEq, Eq)]
pub struct LineCut {
    pub from: usize,
    pub to: usize,
    pub after: usize,
    pub long: bool,
}

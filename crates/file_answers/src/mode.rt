/// What is written of a file.
#[derive(Clone, Copy, Debug, PartialEq, Eq)]
pub enum Mode {
    /// Each line that an answer meets, once.
    Lines,
    /// Each answer by itself, in the parts that lie in its lines.
    Answers,
    /// How many answers there are.
    Count,
    /// The file's name, if there is an answer.
    Names,
    /// Nothing.
    Quiet,
}

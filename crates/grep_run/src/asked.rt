use file_answers::Mode;
use gcl_model::Bytes;
use query_names::Definitions;

/// What is asked of which files. The name `-` is that of standard input.
#[derive(Clone, Copy)]
pub struct Asked<'a> {
    pub mode: Mode,
    /// Whether each line begins with its file's name.
    pub named: bool,
    /// Whether each line begins with its number, after the name.
    pub numbered: bool,
    /// The most answers of a file that count.
    pub most: u64,
    /// The most files that are searched concurrently.
    pub threads: usize,
    /// The files' names, in the order in which they are searched.
    pub names: &'a [Bytes],
}

/// A query as it is given, and the names that it may use.
#[derive(Clone, Copy)]
pub struct Query<'a> {
    pub definitions: &'a Definitions,
    pub text: &'a [u8],
}

use crate::word_list::WordList;
use file_answers::Mode;
use gcl_model::Bytes;

/// A search that the words ask for.
#[derive(Drop)]
pub struct SearchWords {
    pub mode: Mode,
    /// Whether each line begins with its file's name.
    pub named: bool,
    /// Whether each line begins with its number, after the name.
    pub numbered: bool,
    /// Whether to say which files were left out, and what may be wrong with a query.
    pub messages: bool,
    /// The most answers of a file that count.
    pub most: u64,
    /// The most files that are searched concurrently, from 1 to 16.
    pub threads: u64,
    /// The name of a file of definitions.
    pub definitions: Option<Bytes>,
    /// Definitions, each as `NAME=QUERY`.
    pub defines: WordList,
    pub query: Bytes,
    /// The names of the files. The name `-` is that of standard input.
    pub names: WordList,
}

/// What the words of the command line ask for.
#[derive(Drop)]
pub enum Task {
    /// The text about how the program is used.
    Help,
    /// The program's version.
    Version,
    Search(SearchWords),
}

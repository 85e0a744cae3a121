use gcl_model::Bytes;

/// The head of each line: a file's name or none, and the line's number or none.
#[derive(Drop)]
pub struct Shown {
    pub name: Option<Bytes>,
    pub numbered: bool,
}

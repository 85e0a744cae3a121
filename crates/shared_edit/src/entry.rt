use gcl_model::Bytes;

/// What an editor asked for.
#[derive(Drop)]
pub enum Edit {
    /// To add a file of this name and these bytes.
    Add(Bytes, Bytes),
    /// To delete the file of this id.
    Del(u64),
}

/// What the edit was answered.
#[derive(Clone, Copy, Debug, PartialEq, Eq)]
pub enum EditReply {
    /// The file got this id, this first and this last address.
    Added(u64, u64, u64),
    /// The next address, and how many addresses the file needs.
    Spent(u64, u64),
    /// The file is gone.
    Gone,
    /// No surviving file has this id.
    NotLive(u64),
}

/// An edit that was answered, with the number of its editor.
#[derive(Drop)]
pub struct Entry {
    pub editor: u64,
    pub edit: Edit,
    pub reply: EditReply,
}

use gcl_model::Bytes;

/// A step that a disk took for a save. The file is the one that was created last.
#[derive(Drop)]
pub enum Step {
    /// A new file got this name, with nothing in it.
    Creates(Bytes),
    /// The file took these bytes after those that it had.
    Writes(Bytes),
    /// What the file holds outlives a loss of power.
    Syncs,
    /// What had the first name has the second one.
    Renames(Bytes, Bytes),
    /// Nothing has this name any more, unless the disk failed.
    Removes(Bytes),
    /// The names in the folder of this one outlive a loss of power.
    SyncsFolder(Bytes),
}

use gcl_model::Bytes;

/// What a line asks for.
#[derive(Drop)]
pub enum Command {
    /// An empty line, which has no answer.
    Blank,
    /// `add NAME` adds the file of this name.
    Add(Bytes),
    /// `del ID` deletes the file with this id.
    Del(u64),
    /// `find QUERY` lists the intervals of a query. Its text is not read here, and may be empty.
    Find(Bytes),
    /// `count QUERY` gives their number.
    Count(Bytes),
    /// `top N QUERY` lists the first N of them.
    Top(u64, Bytes),
    /// `files` lists the surviving files.
    Files,
    /// `merge` asks for one slot in place of all.
    Merge,
    /// `shards` gives the number of slots.
    Shards,
    /// `save NAME` keeps an image under this name.
    Save(Bytes),
    /// `open NAME` takes the image of this name.
    Load(Bytes),
    /// `watch QUERY` reports from now on what each edit changes of the query's intervals. Its text is not read here, and may be empty.
    Watch(Bytes),
    /// `unwatch W` ends the watch with this number.
    Unwatch(u64),
    /// Every other line.
    Wrong,
}

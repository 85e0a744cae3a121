ghost use Rattle.std.specs.Prelude.{◌≡◌};
ghost use Rattle.answer_text.specs.Given.{edits, merges};

use gcl_model::Bytes;
use script_lang::Refusal;

/// What a line that is not a query asks for.
#[derive(Drop)]
pub enum Action {
    /// Adds the file of this name.
    Add(Bytes),
    /// Deletes the file with this id.
    Delete(u64),
    /// Lists the surviving files.
    ListFiles,
    /// Makes a merge pending.
    Merge,
    /// Counts the slots.
    CountSlots,
    /// Keeps an image under this name.
    Save(Bytes),
    /// Opens the image of this name.
    Open(Bytes),
    /// Watches this query.
    Watch(Bytes),
    /// Ends the watch with this number.
    Unwatch(u64),
    /// Is refused, since it is no command or too long.
    Refuse(Refusal),
}

impl Action {
    /// Whether it makes a merge pending.
    pub fn is_merge(&self) -> bool
        ensures { result ≡ merges self.now }
    {
        matches!(self, Action::Merge)
    }

    /// Whether it may change the collection: then the watches report what changed.
    pub fn is_edit(&self) -> bool
        ensures { result ≡ edits self.now }
    {
        matches!(self, Action::Add(_) | Action::Delete(_) | Action::Open(_))
    }
}

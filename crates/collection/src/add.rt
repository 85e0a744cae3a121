ghost use Rattle.std.specs.Prelude.{◌≡◌, ◌+◌, ◌-◌, ◌<◌, ◌≤◌, ◌↔◌, true, ℕ, length, IfOk, IfErr, IsErr, IsErrOf, OnOk, OnErr};
ghost use Rattle.gcl_model.specs.Collections.{width_of};
ghost use Rattle.gcl_model.specs.Limits.{address_end, most_slots, version_end};
ghost use Rattle.gcl_model.specs.Names.{is_name};
ghost use Rattle.gcl_model.specs.Slots.{slot_range};
ghost use Rattle.gcl_model.specs.Tokens.{tokens_of};
ghost use Rattle.collection.specs.Changes.{AddsFileTo, IsAdd};
ghost use Rattle.collection.specs.Settling.{Grows, Settles};
ghost use Rattle.collection.specs.declared.faults.AddFault.TheVariants.{AddressesSpent as Spent};

use crate::engine::{Added, Engine};
use crate::faults::AddFault;
use address_space::{AddressesSpent, FileId, FileRecord, Range, place};
use gcl_model::{ADDRESS_END, Bytes};
use live_version::Version;
use shard_build::{TextIndex, index_text};
use shard_merge::merge;
use std::alloc::{AllocError, Global};
use std::sync::Wait;
use word_tokens::token_count;

impl Engine {
    /// Adds a file of these bytes, and publishes once. On `Err` nothing was published.
    pub fn add<R: Wait>(&mut self, rt: &R, name: &[u8], bytes: &[u8]) -> Result<Added, AddFault>
        requires { is_name name.now ≡ true }
        ensures ok { IfOk result (IsAdd self.old self.new name.now (tokens_of bytes.now)) }
        ensures fits { OnOk result (self.old.version.next + width_of (tokens_of bytes.now) ≤ address_end) }
        ensures spent { (next : ℕ) → (need : ℕ) → IsErrOf result (Spent next need) → (next ≡ self.old.version.next) ×
            (need ≡ width_of (tokens_of bytes.now)) × (address_end < next + need) }
        ensures err { OnErr result (self.new ≡ self.old) }
    {
        find_room(self.version().next(), bytes)?;
        let index = self.index(bytes)?;
        let added = self.put_index(rt, name, index)?;
        Ok(added)
    }

    /// Adds a file of a text whose index was made ahead, and publishes once. On `Err` nothing was published. It does what `add` does
    /// with that text: the index is placed, which needs no look at the text.
    pub fn add_indexed<R: Wait>(
        &mut self,
        rt: &R,
        name: &[u8],
        index: TextIndex,
    ) -> Result<Added, AddFault>
        requires { is_name name.now ≡ true }
        ensures ok { IfOk result (IsAdd self.old self.new name.now index) }
        ensures fits { OnOk result (self.old.version.next + width_of index ≤ address_end) }
        ensures spent { (next : ℕ) → (need : ℕ) → IsErrOf result (Spent next need) → (next ≡ self.old.version.next) ×
            (need ≡ width_of index) × (address_end < next + need) }
        ensures err { OnErr result (self.new ≡ self.old) }
    {
        place_file(self.version().next(), index.width())?;
        let added = self.put_index(rt, name, index)?;
        Ok(added)
    }

    /// The index of a text, made with the names that are kept from add to add.
    fn index(&mut self, bytes: &[u8]) -> Result<TextIndex, AllocError>
        requires { width_of (tokens_of bytes.now) ≤ address_end }
        ensures index { IfOk result (λ index. index ≡ tokens_of bytes.now) }
        ensures same { self.new ≡ self.old }
    {
        let mut names = self.lend_names();
        let made = index_text(self.allocator(), &mut names, bytes);
        self.keep_names(names);
        made
    }

    /// Adds a file of the text with this index, for which there is room, and publishes once.
    fn put_index<R: Wait>(
        &mut self,
        rt: &R,
        name: &[u8],
        index: TextIndex,
    ) -> Result<Added, AllocError>
        requires named { is_name name.now ≡ true }
        requires fits { self.old.version.next + width_of index ≤ address_end }
        ensures ok { IfOk result (IsAdd self.old self.new name.now index) }
        ensures err { OnErr result (self.new ≡ self.old) }
    {
        let width = index.width();
        let last = self.version();
        let id = FileId(last.next_id());
        let first = last.next();
        let version = with_file(self.allocator(), last, name, index)?;
        let receipt = self.publish(rt, version)?;
        Ok(Added {
            id,
            first,
            last: first + width - 1,
            receipt,
        })
    }
}

/// Whether there is room starting at `next` for a file of these bytes.
// If more addresses are left than any text of this many bytes needs, its tokens are not counted.
fn find_room(next: u64, bytes: &[u8]) -> Result<(), AddressesSpent>
    requires { next ≤ address_end }
    ensures ok { OnOk result (next + width_of (tokens_of bytes.now) ≤ address_end) }
    ensures spent { IfErr result (λ spent. (spent.next ≡ next) × (spent.need ≡ width_of (tokens_of bytes.now)) ×
        (address_end < next + width_of (tokens_of bytes.now))) }
{
    let left = ADDRESS_END - next;
    if left >= 2 && bytes.len() as u64 <= left - 2 {
        return Ok(());
    }
    place_file(next, width(bytes))?;
    Ok(())
}

/// How many addresses a file of these bytes needs.
fn width(bytes: &[u8]) -> u64
    ensures { result ≡ width_of (tokens_of bytes.now) }
{
    count(bytes) + 2
}

/// The number of tokens. No text has more of them than bytes.
fn count(bytes: &[u8]) -> u64
    ensures value { result ≡ length (tokens_of bytes.now) }
    ensures few { result ≤ length bytes.now }
{
    token_count(bytes)
}

/// The addresses, starting at `next`, of a file that needs `need` of them.
fn place_file(next: u64, need: u64) -> Result<Range, AddressesSpent>
    requires start { next ≤ address_end }
    requires some { 1 ≤ need }
    ensures ok { IfOk result (λ range. range ≡ slot_range next (next + need - 1)) }
    ensures spent { IsErr result ↔ (address_end < next + need) }
    ensures err { IfErr result (λ spent. (spent.next ≡ next) × (spent.need ≡ need)) }
{
    if ADDRESS_END < need {
        return Err(AddressesSpent { next, need });
    }
    place(next, need)
}

/// The version with one more file, of the text with this index, and with its last slots merged as far as the rule of adding goes.
fn with_file(
    alloc: Global,
    last: &Version,
    name: &[u8],
    index: TextIndex,
) -> Result<Version, AllocError>
    requires few { length last.now.slots < most_slots }
    requires ids { last.now.next_id < version_end }
    requires number { last.now.number + 1 < version_end }
    requires fits { last.now.next + width_of index ≤ address_end }
    requires named { is_name name.now ≡ true }
    ensures { IfOk result (λ version. AddsFileTo last.now version name.now index) }
{
    let file = FileRecord {
        id: FileId(last.next_id()),
        base: last.next(),
        len: index.width(),
        name: Bytes::copy_of(alloc, name)?,
    };
    let shard = index.placed(last.next());
    let grown = last.with_file(file, shard)?;
    let version = settled(alloc, last, grown)?;
    Ok(version)
}

/// A version that grew by one slot, with the last slots merged as far as the rule of adding goes.
fn settled(alloc: Global, last: &Version, grown: Version) -> Result<Version, AllocError>
    requires grown { Grows last.now grown }
    requires number { last.now.number + 1 < version_end }
    ensures { IfOk result (Settles last.now grown) }
{
    let count = grown.tail();
    if count < 2 {
        return Ok(grown);
    }
    let at = grown.slot_count() - count;
    let slot = merge(alloc, &grown, at, count)?;
    let joined = grown.with_slot(at, count, Some(slot))?;
    Ok(joined.after(last))
}

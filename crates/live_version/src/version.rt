ghost use Rattle.std.specs.Prelude.{◌≡◌, ◌+◌, ◌≤◌, ◌<◌, length, slice_index_or};
ghost use Rattle.gcl_model.specs.Limits.{most_slots, version_end};
ghost use Rattle.live_version.specs.Contents.{IsVersion, version_content};
ghost use Rattle.live_version.specs.StandsFor.{Keeps};

use crate::slot::Slot;
use std::alloc::Global;
use std::marker::Model;

/// The numbers of a version, by their names.
#[derive(Clone, Copy)]
pub(crate) struct Numbers {
    pub(crate) number: u64,
    pub(crate) edition: u64,
    pub(crate) first: u64,
    pub(crate) next: u64,
    pub(crate) next_id: u64,
    pub(crate) dels: u64,
}

/// What a reader sees: the numbers of a collection, and its words and files in at most 32 slots.
#[derive(Drop)]
pub struct Version {
    numbers: Numbers,
    slots: Vec<Slot>,
}

impl Model for Version {
    ghost use Rattle.live_version.specs.Contents.{VersionContent, IsVersion, version_content};

    ghost Value = { VersionContent };

    ghost view = { λ v. version_content v.numbers.number v.numbers.edition v.numbers.first v.numbers.next v.numbers.next_id v.numbers.dels
        v.slots.items };

    ghost invariant = { λ v.
        IsVersion (version_content v.numbers.number v.numbers.edition v.numbers.first v.numbers.next v.numbers.next_id v.numbers.dels
        v.slots.items) };
}

impl Version {
    /// The version with these numbers and slots.
    pub(crate) fn of(numbers: Numbers, slots: Vec<Slot>) -> Self
        requires { IsVersion (version_content numbers.number numbers.edition numbers.first numbers.next numbers.next_id numbers.dels
            slots.items) }
        ensures { result ≡ version_content numbers.number numbers.edition numbers.first numbers.next numbers.next_id numbers.dels
            slots.items }
    {
        Version { numbers, slots }
    }

    pub(crate) fn numbers(&self) -> Numbers
        ensures number { result.number ≡ self.now.number }
        ensures edition { result.edition ≡ self.now.edition }
        ensures first { result.first ≡ self.now.first }
        ensures next { result.next ≡ self.now.next }
        ensures next_id { result.next_id ≡ self.now.next_id }
        ensures dels { result.dels ≡ self.now.dels }
        ensures version { IsVersion self.now }
    {
        self.numbers
    }

    /// How many versions were published before it.
    pub fn number(&self) -> u64
        ensures value { result ≡ self.now.number }
        ensures version { IsVersion self.now }
    {
        self.numbers.number
    }

    /// How often files came or went before it.
    pub fn edition(&self) -> u64
        ensures value { result ≡ self.now.edition }
        ensures version { IsVersion self.now }
    {
        self.numbers.edition
    }

    /// The first address of the collection.
    pub fn first(&self) -> u64
        ensures value { result ≡ self.now.first }
        ensures version { IsVersion self.now }
    {
        self.numbers.first
    }

    /// The address that the next file begins at.
    pub fn next(&self) -> u64
        ensures value { result ≡ self.now.next }
        ensures version { IsVersion self.now }
    {
        self.numbers.next
    }

    /// The id that the next file gets.
    pub fn next_id(&self) -> u64
        ensures value { result ≡ self.now.next_id }
        ensures version { IsVersion self.now }
    {
        self.numbers.next_id
    }

    /// How many files were deleted.
    pub fn dels(&self) -> u64
        ensures value { result ≡ self.now.dels }
        ensures version { IsVersion self.now }
    {
        self.numbers.dels
    }

    /// The number of slots.
    pub fn slot_count(&self) -> usize
        ensures value { result ≡ length self.now.slots }
        ensures few { result ≤ most_slots }
        ensures version { IsVersion self.now }
    {
        self.slots.len()
    }

    /// The slot at place `i`, counted from 0, in rising address.
    pub fn slot(&self, i: usize) -> &Slot
        requires { i < length self.now.slots }
        ensures value { result.now ≡ slice_index_or self.now.slots i result.now }
        ensures version { IsVersion self.now }
    {
        &self.slots[i]
    }

    /// The slots, in rising address.
    pub fn slots(&self) -> &[Slot]
        ensures value { result.now ≡ self.now.slots }
        ensures version { IsVersion self.now }
    {
        self.slots.as_slice()
    }

    pub(crate) fn allocator(&self) -> Global {
        *self.slots.allocator()
    }

    /// The same version under the numbers that follow those of another one.
    pub fn after(mut self, previous: &Version) -> Version
        requires { previous.now.number < version_end }
        ensures value { result ≡ record self { number = previous.now.number + 1; edition = previous.now.edition + 1 } }
        ensures stands { Keeps self result }
    {
        self.numbers.number = previous.number() + 1;
        self.numbers.edition = previous.edition() + 1;
        self
    }
}

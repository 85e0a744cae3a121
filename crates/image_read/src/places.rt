ghost use Rattle.std.specs.Prelude.{◌≡◌, ◌+◌, ◌≤◌, ◌<◌, ◌↔◌, ℕ, true, false, length, Some, IfOk, IfSome, IsNone, IsTrue, IsFalse};
ghost use Rattle.std.specs.List.{prefix_len};
ghost use Rattle.live_version.specs.Contents.{is_of_files};
ghost use Rattle.address_space.specs.Runs.{IsFileRun, IsPlaced};
ghost use Rattle.image_read.specs.Reading.{IsRankOf, Sees, is_seen, role_in, widths};
ghost use Rattle.image_read.specs.declared.places.Role.TheVariants.{Inner};
ghost use Rattle.image_read.specs.Stretches.{AreInRow, ends_before, role_of_stretch, stretch_of};

use crate::guesses::Guesses;
use crate::marks::Marks;
use address_space::{FileRecord, SharedRecord};
use std::alloc::{AllocError, Global};
use std::marker::Model;

/// What is at an address of a file.
#[derive(Clone, Copy, Debug, PartialEq, Eq)]
pub(crate) enum Role {
    /// `<file!>`.
    Start,
    /// A token of the file.
    Inner,
    /// `</file!>`.
    End,
}

/// Where a file lies, and how many addresses the files before it have.
#[derive(Clone, Copy, Drop)]
pub(crate) struct Stretch {
    pub(crate) first: u64,
    pub(crate) last: u64,
    before: usize,
}

/// The addresses of all files, and at which of them a word was seen.
// Most addresses of a term are in the file of the one before, which is kept separately. The others are searched for among the stretches.
#[derive(Drop)]
pub(crate) struct Places<'a> {
    files: &'a [SharedRecord],
    stretches: Vec<Stretch>,
    guesses: Guesses,
    seen: Marks,
    // the file of the address that was seen last, and its place
    near: Stretch,
    place: usize,
}

impl<'a> Model for Places<'a> {
    ghost use Rattle.image_read.specs.Reading.{IsPlaces, SeenContent};

    ghost Value = { SeenContent };

    ghost view = { λ p. record { files = p.files.now; seen = p.seen } };

    ghost invariant = { λ p. IsPlaces p.files.now p.stretches.items p.seen p.near };
}

impl<'a> Places<'a> {
    /// Nothing was seen yet. Returns None if the files have more than `most` addresses.
    pub(crate) fn new(
        alloc: Global,
        files: &'a [SharedRecord],
        most: usize,
    ) -> Result<Option<Places<'a>>, AllocError>
        requires { IsFileRun files.now }
        ensures files { IfOk result (λ found. IfSome found (λ places. places.files ≡ files.now)) }
        ensures seen { IfOk result (λ found. IfSome found (λ places. (p : ℕ) → is_seen places p ≡ false)) }
        ensures none { IfOk result (λ found. IsNone found → most < widths files.now) }
    {
        let mut stretches = Vec::with_capacity(alloc, files.len())?;
        let mut total = 0;
        for file in files {
            let file = file.record();
            if ((most - total) as u64) < file.len {
                return Ok(None);
            }
            stretches.push(stretch_of(file, total))?;
            total += file.len as usize;
        }
        let guesses = Guesses::new(alloc, &stretches)?;
        Ok(Some(Places {
            files,
            stretches,
            guesses,
            seen: Marks::new(alloc, total)?,
            near: NOWHERE,
            place: 0,
        }))
    }

    /// Sees a word with this role at an address. Returns false if no file has the address, it has another role, or a word was seen there.
    #[inline(always)]
    pub(crate) fn see(&mut self, address: u64, role: Role) -> bool
        ensures may { IsTrue result → role_in self.old.files address ≡ Some role }
        ensures fresh { IsTrue result → is_seen self.old address ≡ false }
        ensures sees { IsTrue result → Sees self.old self.new address }
        ensures refused { IsFalse result → role_in self.old.files address ≡ Some role → is_seen self.old address ≡ true }
        ensures files { self.new.files ≡ self.old.files }
    {
        let Some(at) = self.rank_of(address, role) else {
            return false;
        };
        if self.seen.is_marked(at) {
            return false;
        }
        self.seen.mark(at);
        true
    }

    /// How many addresses of the files come before one of this role. Returns None if the address does not have this role.
    // Between the ends of the near file there are tokens alone.
    #[inline(always)]
    fn rank_of(&mut self, address: u64, role: Role) -> Option<usize>
        ensures some { IfSome result (λ at. IsRankOf self.old.files self.old.seen address role at) }
        ensures none { IsNone result → role_in self.old.files address ≡ Some role → ⊥ }
        ensures same { self.new ≡ self.old }
    {
        let near = self.near;
        if near.first < address && address < near.last && is_inner(role) {
            return Some(near.before + (address - near.first) as usize);
        }
        self.look_for(address, role)
    }

    /// The same in any file, which is the near one afterwards.
    #[inline(never)]
    fn look_for(&mut self, address: u64, role: Role) -> Option<usize>
        ensures some { IfSome result (λ at. IsRankOf self.old.files self.old.seen address role at) }
        ensures none { IsNone result → role_in self.old.files address ≡ Some role → ⊥ }
        ensures same { self.new ≡ self.old }
    {
        let i = ended_by(&self.stretches, &self.guesses, self.place, address);
        if i == self.stretches.len() {
            return None;
        }
        let stretch = self.stretches[i];
        self.near = stretch;
        self.place = i;
        if address < stretch.first || !has_role(stretch, address, role) {
            return None;
        }
        Some(stretch.before + (address - stretch.first) as usize)
    }

    /// Whether a word was seen at each address.
    pub(crate) fn is_full(&self) -> bool
        ensures { IsTrue result ↔ ((p : ℕ) → is_of_files self.now.files p ≡ true → is_seen self.now p ≡ true) }
    {
        self.seen.all_marked()
    }
}

/// How many stretches are tried starting at a guess.
const GUESSES: usize = 4;

/// No file: no address lies between its ends.
const NOWHERE: Stretch = Stretch {
    first: 0,
    last: 0,
    before: 0,
};

fn stretch_of(file: &FileRecord, before: usize) -> Stretch
    requires { IsPlaced file.now }
    ensures { result ≡ stretch_of file.now before }
{
    Stretch {
        first: file.base,
        last: file.base + (file.len - 1),
        before,
    }
}

/// How many stretches end before an address: they are the first ones.
// The stretch behind the last one is tried, then a few at a guess. All of them are searched only if none of these is the right one.
fn ended_by(stretches: &[Stretch], guesses: &Guesses, place: usize, address: u64) -> usize
    requires { AreInRow stretches.now }
    ensures value { result ≡ prefix_len (ends_before address) stretches.now }
    ensures within { result ≤ length stretches.now }
{
    if is_met(stretches, place, 1, address) {
        return place + 1;
    }
    let guess = guesses.of(address);
    for more in 0..GUESSES {
        if is_met(stretches, guess, more, address) {
            return guess + more;
        }
    }
    stretches.partition_point(
        |stretch: &Stretch| -> bool
            ensures { result ≡ ends_before address stretch.now }
        { stretch.last < address },
    )
}

/// Whether the stretch some places after another one is the first that does not end before an address.
#[inline(always)]
fn is_met(stretches: &[Stretch], place: usize, more: usize, address: u64) -> bool
    requires { AreInRow stretches.now }
    ensures value { IsTrue result → place + more ≡ prefix_len (ends_before address) stretches.now }
    ensures within { IsTrue result → place + more < length stretches.now }
{
    let len = stretches.len();
    if len <= place || len - place <= more {
        return false;
    }
    let i = place + more;
    address <= stretches[i].last && (i == 0 || stretches[i - 1].last < address)
}

fn has_role(stretch: Stretch, address: u64, role: Role) -> bool
    ensures { IsTrue result ↔ role_of_stretch address stretch ≡ role }
{
    role_at(stretch, address) == role
}

/// Whether tokens have the role.
#[inline(always)]
fn is_inner(role: Role) -> bool
    ensures { IsTrue result ↔ role ≡ Inner }
{
    role == Role::Inner
}

fn role_at(stretch: Stretch, address: u64) -> Role
    ensures { result ≡ role_of_stretch address stretch }
{
    if address == stretch.first {
        return Role::Start;
    }
    if address == stretch.last {
        return Role::End;
    }
    Role::Inner
}

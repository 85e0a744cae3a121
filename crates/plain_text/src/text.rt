ghost use Rattle.std.specs.Prelude.{◌≡◌, ◌<◌, ◌≤◌, [], length, nat_lt, nat_le, slice_get, slice_range, Some, OnOk, OnErr};
ghost use Rattle.std.specs.List.{prefix_len};
ghost use Rattle.gcl_model.specs.Texts.{IsText};
ghost use Rattle.plain_text.specs.Entries.{start_at};
ghost use Rattle.plain_text.specs.Puts.{AreBelow, word, with_word};

use crate::entry::Entry;
use gcl_model::Span;
use std::alloc::{AllocError, Global};
use std::marker::Model;

/// Words at rising addresses of a span. The bytes of all words lie in one block.
#[derive(Drop)]
pub struct PlainText {
    span: Span,
    bytes: Vec<u8>,
    entries: Vec<Entry>,
}

impl Model for PlainText {
    ghost use Rattle.gcl_model.specs.Texts.{Text};
    ghost use Rattle.plain_text.specs.Entries.{words_in, IsKept};

    ghost Value = { Text };

    ghost view = { λ t. record { first = t.span.first; next = t.span.next; words = words_in t.bytes.items 0 t.entries.items } };

    ghost invariant = { λ t. IsKept t.span.first t.span.next t.bytes.items t.entries.items };
}

impl PlainText {
    /// A text without words. It takes no memory.
    pub fn new(alloc: Global, span: Span) -> Self
        ensures first { result.first ≡ span.first }
        ensures next { result.next ≡ span.next }
        ensures words { result.words ≡ [] }
    {
        PlainText {
            span,
            bytes: Vec::new(alloc),
            entries: Vec::new(alloc),
        }
    }

    /// Puts a word after all others.
    pub fn put(&mut self, address: u64, token: &[u8]) -> Result<(), AllocError>
        requires above { self.old.first ≤ address }
        requires below { address < self.old.next }
        requires last { AreBelow address self.old.words }
        ensures ok { OnOk result (self.new ≡ with_word self.old address token.now) }
        ensures err { OnErr result (self.new ≡ self.old) }
    {
        // with room for the entry reserved, nothing can fail once the bytes are added
        self.entries.reserve(1)?;
        self.bytes.extend_from_slice(token)?;
        let end = self.bytes.as_slice().len();
        self.entries.push(Entry { address, end })?;
        Ok(())
    }

    pub(crate) fn word_count(&self) -> usize
        ensures { result ≡ length self.now.words }
    {
        self.entries.as_slice().len()
    }

    /// The address and the token of the word at place `i`.
    pub(crate) fn word_at(&self, i: usize) -> (u64, &[u8])
        requires { i < length self.now.words }
        ensures { slice_get self.now.words i ≡ Some (word result.0 result.1.now) }
    {
        let entries = self.entries.as_slice();
        let start = start_of(entries, i);
        let entry = entries[i];
        (entry.address, part(self.bytes.as_slice(), start, entry.end))
    }

    /// How many words are before address `k`.
    pub(crate) fn count_before(&self, k: u64) -> usize
        ensures count { result ≡ prefix_len (λ w. nat_lt w.address k) self.now.words }
        ensures sound { IsText self.now }
    {
        self.entries.as_slice().partition_point(
            |entry: &Entry| -> bool
                ensures { result ≡ nat_lt entry.now.address k }
            { entry.address < k },
        )
    }

    /// How many words are before address `k` or at it.
    pub(crate) fn count_upto(&self, k: u64) -> usize
        ensures count { result ≡ prefix_len (λ w. nat_le w.address k) self.now.words }
        ensures sound { IsText self.now }
    {
        self.entries.as_slice().partition_point(
            |entry: &Entry| -> bool
                ensures { result ≡ nat_le entry.now.address k }
            { entry.address <= k },
        )
    }

    pub(crate) fn addresses(&self) -> Span
        ensures first { result.first ≡ self.now.first }
        ensures next { result.next ≡ self.now.next }
        ensures sound { IsText self.now }
    {
        self.span
    }
}

/// Where the bytes of the word at place `i` begin.
fn start_of(entries: &[Entry], i: usize) -> usize
    requires { i ≤ length entries.now }
    ensures { result ≡ start_at 0 entries.now i }
{
    if i == 0 { 0 } else { entries[i - 1].end }
}

/// The bytes from `start` up to `end`.
fn part(bytes: &[u8], start: usize, end: usize) -> &[u8]
    requires ordered { start ≤ end }
    requires within { end ≤ length bytes.now }
    ensures { result.now ≡ slice_range bytes.now start end }
{
    &bytes[start..end]
}

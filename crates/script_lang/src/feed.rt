ghost use Rattle.std.specs.Prelude.{◌≡◌, ◌+◌, ◌<◌, ◌≤◌, ◌↔◌, ◌++◌, [], ◌∷◌, ℕ, false, List, Some, length, take, drop};
ghost use Rattle.std.specs.Prelude.{IfOk, OnOk, OnErr, IfSome, MatchOption};
ghost use Rattle.script_lang.specs.Lines.{line_of, lines, line_end, ended};
ghost use Rattle.script_lang.specs.Feeds.{Feed, has_newline, line_taken, BeginsLong, HasShortEnd, IsTakenFrom};

use crate::blanks::front_blanks;
use crate::lines::{line_end, text_len};
use crate::taken::Taken;
use gcl_model::Bytes;
use memchr::memrchr;
use std::alloc::{AllocError, Global};
use std::marker::Model;

/// A line without its newline, as it is taken.
fn taken_of(alloc: Global, line: &[u8], most: u64) -> Result<Taken, AllocError>
    ensures line { IfOk result (λ taken. line_taken taken ≡ Some (line_of most line.now)) }
    ensures long { IfOk result (λ taken. taken ≡ Taken.Long ↔ (most < length line.now)) }
{
    if line.len() as u64 > most {
        return Ok(Taken::Long);
    }
    let text = &line[..text_len(line)];
    let said = &text[front_blanks(text)..];
    Ok(Taken::Line(Bytes::copy_of(alloc, said)?))
}

/// How many bytes of a piece are kept after those that are held: of a line that does not end in it, no more than
/// show that it is long.
fn kept_len(held: &[u8], piece: &[u8], most: u64) -> usize
    requires begun { has_newline held.now ≡ false }
    requires short { length held.now ≤ most + 1 }
    ensures bound { result ≤ length piece.now }
    ensures lines { (later : List ℕ) →
        lines most (held.now ++ take result piece.now ++ later) ≡ lines most (held.now ++ piece.now ++ later) }
    ensures end { HasShortEnd most (held.now ++ take result piece.now) }
{
    let longest = (most as usize).saturating_add(1);
    match memrchr(b'\n', piece) {
        Some(last) => last + 1 + (piece.len() - last - 1).min(longest),
        None => piece.len().min(longest - held.len()),
    }
}

/// Cuts lines from a text that comes in pieces.
///
/// Contracts see the bytes that it holds, and how many a line may have. If no newline is held, a piece is pushed;
/// then lines are taken, until there are no more, or all whole lines are read in place, by `ready`, and taken at
/// once. The lines that are taken from pieces are the lines of the whole text, however it was cut. Of a line that is
/// too long only as much is held as shows that it is.
#[derive(Drop)]
pub struct LineFeed {
    most: u64,
    bytes: Vec<u8>,
    // The bytes before this place were taken.
    at: usize,
    // No newline is held before this place, so that no search begins at the front again.
    seen: usize,
}

impl Model for LineFeed {
    ghost use Rattle.std.specs.Prelude.{◌≡◌, ◌≤◌, length, drop};
    ghost use Rattle.script_lang.specs.Lines.{line_end};
    ghost use Rattle.script_lang.specs.Feeds.{Feed, HasShortEnd};

    ghost Value = { Feed };

    ghost view = { λ f. record { most = f.most; held = drop f.at f.bytes.items } };

    ghost invariant = { λ f. record {
      begins : f.at ≤ f.seen;
      within : f.seen ≤ length f.bytes.items;
      same_end : line_end f.bytes.items f.seen ≡ line_end f.bytes.items f.at;
      short_end : HasShortEnd f.most (drop f.at f.bytes.items);
    } };
}

impl LineFeed {
    /// Nothing is held. `most` is how many bytes a line may have without its newline. It allocates nothing.
    pub fn new(alloc: Global, most: u64) -> Self
        ensures { result ≡ record { most = most; held = [] } }
    {
        LineFeed {
            most,
            bytes: Vec::new(alloc),
            at: 0,
            seen: 0,
        }
    }

    /// Whether a whole line is held: then it has to be taken before a piece is pushed.
    pub fn has_line(&self) -> bool
        ensures { result ≡ has_newline self.now.held }
    {
        line_end(self.bytes.as_slice(), self.seen) < self.bytes.len()
    }

    /// Drops the bytes that were taken.
    fn move_to_front(&mut self)
        ensures { self.new ≡ self.old }
    {
        let left = self.bytes.len() - self.at;
        self.bytes.as_mut_slice().copy_within(self.at.., 0);
        self.bytes.truncate(left);
        self.seen -= self.at;
        self.at = 0;
    }

    /// Takes in the next piece of the text.
    pub fn push(&mut self, piece: &[u8]) -> Result<(), AllocError>
        requires { has_newline self.old.held ≡ false }
        ensures lines { OnOk result ((later : List ℕ) →
            lines self.old.most (self.new.held ++ later) ≡ lines self.old.most (self.old.held ++ piece.now ++ later)) }
        ensures bound { length self.new.held ≤ length self.old.held + length piece.now }
        ensures most { self.new.most ≡ self.old.most }
        ensures err { OnErr result (self.new ≡ self.old) }
    {
        self.move_to_front();
        let kept = kept_len(self.rest(), piece, self.most);
        self.bytes.extend_from_slice(&piece[..kept])?;
        Ok(())
    }

    /// Takes the next line, once its newline is there.
    pub fn take(&mut self) -> Result<Taken, AllocError>
        ensures more { IfOk result (λ taken. taken ≡ Taken.More ↔ has_newline self.old.held ≡ false) }
        ensures long { IfOk result (λ taken. taken ≡ Taken.Long ↔ BeginsLong self.old) }
        ensures line { IfOk result (λ taken. MatchOption (line_taken taken) (self.new ≡ self.old) (IsTakenFrom self.old self.new)) }
        ensures few { IfOk result (λ taken. taken ≡ Taken.More → length self.new.held ≤ self.new.most + 1) }
        ensures most { self.new.most ≡ self.old.most }
        ensures err { OnErr result (self.new ≡ self.old) }
    {
        let end = line_end(self.bytes.as_slice(), self.seen);
        if end == self.bytes.len() {
            self.seen = end;
            return Ok(Taken::More);
        }
        let line = &self.bytes.as_slice()[self.at..end];
        let taken = taken_of(*self.bytes.allocator(), line, self.most)?;
        self.at = end + 1;
        self.seen = end + 1;
        Ok(taken)
    }

    /// How many bytes of what is held are whole lines.
    fn ready_len(&self) -> usize
        ensures value { take result self.now.held ≡ ended self.now.held }
        ensures bound { result ≤ length self.now.held }
    {
        match memrchr(b'\n', &self.bytes.as_slice()[self.seen..]) {
            Some(last) => self.seen + last + 1 - self.at,
            None => 0,
        }
    }

    /// The whole lines that are held: the bytes up to and including the last newline.
    pub fn ready(&self) -> &[u8]
        ensures { result.now ≡ ended self.now.held }
    {
        &self.rest()[..self.ready_len()]
    }

    /// Takes the whole lines that are held, all at once.
    pub fn take_ready(&mut self)
        ensures lines { (later : List ℕ) →
            lines self.old.most (self.old.held ++ later) ≡
            lines self.old.most (ended self.old.held) ++ lines self.old.most (self.new.held ++ later) }
        ensures parts { self.old.held ≡ ended self.old.held ++ self.new.held }
        ensures none { has_newline self.new.held ≡ false }
        ensures whole { length (ended self.old.held) + length self.new.held ≡ length self.old.held }
        ensures few { length self.new.held ≤ self.old.most + 1 }
        ensures most { self.new.most ≡ self.old.most }
    {
        self.at += self.ready_len();
        self.seen = self.bytes.len();
    }

    /// All bytes that are held: at the end of the text its last line, if that has no newline.
    pub fn rest(&self) -> &[u8]
        ensures { result.now ≡ self.now.held }
    {
        &self.bytes.as_slice()[self.at..]
    }

    /// Takes the last line, which has no newline, at the end of the text. Nothing is held then.
    pub fn finish(&mut self) -> Result<Taken, AllocError>
        requires { has_newline self.old.held ≡ false }
        ensures more { IfOk result (λ taken. taken ≡ Taken.More ↔ self.old.held ≡ []) }
        ensures line { IfOk result (λ taken. IfSome (line_taken taken) (λ line. lines self.old.most self.old.held ≡ line ∷ [])) }
        ensures none { OnOk result (self.new.held ≡ []) }
        ensures most { self.new.most ≡ self.old.most }
        ensures err { OnErr result (self.new ≡ self.old) }
    {
        if self.at == self.bytes.len() {
            return Ok(Taken::More);
        }
        let line = self.rest();
        let taken = taken_of(*self.bytes.allocator(), line, self.most)?;
        self.bytes.clear();
        self.at = 0;
        self.seen = 0;
        Ok(taken)
    }
}

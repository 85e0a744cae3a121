ghost use Rattle.std.specs.Prelude.{◌≡◌, ◌<◌, [], ◌∷◌, ◌++◌, List, ℕ, None};
ghost use Rattle.std.specs.Prelude.{Some, length, if◌then◌else◌, bytes_eq, unwrap_or, IfOk, IfSome, OnOk};
ghost use Rattle.std.specs.List.{IsDistinct};
ghost use Rattle.std.specs.Map.{keys_of};
ghost use Rattle.gcl_model.specs.Limits.{address_end};
ghost use Rattle.gcl_model.specs.Collections.{words_from};
ghost use Rattle.index_shard.specs.Tables.{words_of};
ghost use Rattle.posting_code.specs.Postings.{ArePostings, RiseWithin};
ghost use Rattle.shard_build.specs.Met.{HaveTokens, addresses_of, list_at, name_at, with_list};

use crate::hint::Hint;
use crate::lists::{NameLists, clear_all, hand_over, push_at, seen_at};
use crate::name::Name;
use crate::numbers::{Numbers, add_number, find_number, forget_above, shrink_numbers};
use crate::order::{sort_names, sort_seen};
use crate::seen::Seen;
use address_space::Range;
use index_shard::{Room, Shard, ShardMaker};
use posting_code::{PostingMaker, RowsRoom};
use std::alloc::{AllocError, Global};
use std::marker::Model;

/// How many names are kept from file to file.
const MOST_NAMES: usize = 16_384;

/// How many bytes a name has, and how many its addresses take, as a guess: rows grow if it is too low.
const NAME_BYTES: usize = 8;

const LIST_BYTES: usize = 2;

/// The names that were met so far, each with a list for its addresses in the current file.
// The next file's shard does not depend on it: a name that was met before takes no memory again, and numbers are sorted, not names.
#[derive(Drop)]
pub struct Names {
    // a name's place here is its number
    lists: NameLists,
    numbers: Numbers,
    hint: Hint,
    seen: Vec<Seen>,
}

impl Model for Names {
    ghost use Rattle.shard_build.specs.Met.{NamesContent, AreNumbered, names_of};

    ghost Value = { NamesContent };

    ghost view = { λ n. names_of n.lists.items n.seen.items };

    ghost invariant = { λ n. AreNumbered n.numbers (names_of n.lists.items n.seen.items) };
}

impl Names {
    /// No names yet. It takes no memory.
    pub fn new(alloc: Global) -> Self {
        Names::seeded(alloc, 0)
    }

    /// No names yet, whose hashes begin with a number: no answer depends on it. If each run has its own, no text can be made
    /// that is slow to add. It takes no memory.
    pub fn seeded(alloc: Global, seed: u64) -> Self {
        Names {
            lists: Vec::new(alloc),
            numbers: Numbers::new(alloc, seed),
            hint: Hint::new(),
            seen: Vec::new(alloc),
        }
    }

    /// Empties all lists, and keeps the names.
    pub(crate) fn clear(&mut self)
        ensures { (token : List ℕ) → addresses_of self.new token ≡ None }
    {
        clear_all(&mut self.lists, &mut self.seen);
        self.put_in_order();
    }

    /// Puts the names in the order of their bytes when it is time for that.
    fn put_in_order(&mut self)
        requires { self.old.seen ≡ [] }
        ensures { (token : List ℕ) → addresses_of self.new token ≡ None }
    {
        let names = self.lists.len();
        if names > MOST_NAMES || !self.hint.is_due(names) {
            return;
        }
        sort_names(&mut self.lists, &mut self.numbers);
        self.hint.put(names);
    }

    /// Appends an address to those of its token.
    pub(crate) fn put(&mut self, token: &[u8], address: u64) -> Result<(), AllocError>
        requires bounded { address < address_end }
        requires behind { IfSome (addresses_of self.old token.now) (λ list. RiseWithin 0 address list) }
        ensures lists { OnOk result ((cs : List ℕ) → addresses_of self.new cs
            ≡ (if bytes_eq token.now cs then Some (unwrap_or (addresses_of self.old cs) [] ++ address ∷ [])
            else addresses_of self.old cs)) }
    {
        let number = self.number_of(token)?;
        self.put_at(number, address)?;
        Ok(())
    }

    /// The number of a token, which is a new one if it was not met before.
    fn number_of(&mut self, token: &[u8]) -> Result<usize, AllocError>
        ensures distinct { OnOk result (IsDistinct bytes_eq (keys_of self.new.entries)) }
        ensures within { IfOk result (λ number. number < length self.new.entries) }
        ensures name { IfOk result (λ number. name_at self.new.entries number ≡ token.now) }
        ensures list { IfOk result (λ number. list_at self.new.entries number ≡ unwrap_or (addresses_of self.old token.now) []) }
        ensures lists { OnOk result ((cs : List ℕ) → addresses_of self.new cs ≡ addresses_of self.old cs) }
    {
        if let Some(number) = find_number(&self.numbers, &self.lists, token) {
            return Ok(number);
        }
        let alloc = *self.seen.allocator();
        let number = self.lists.len();
        self.lists.reserve(1)?;
        let name = Name::copy_of(alloc, token)?;
        add_number(&mut self.numbers, &self.lists, token)?;
        self.lists.push_reserved((name, PostingMaker::new(alloc)));
        Ok(number)
    }

    /// Appends an address to those of the name with this number.
    // It notes only at the first address that the name was seen.
    fn put_at(&mut self, number: usize, address: u64) -> Result<(), AllocError>
        requires within { number < length self.old.entries }
        requires rising { ArePostings (list_at self.old.entries number ++ address ∷ []) }
        ensures { OnOk result (self.new.entries ≡ with_list self.old.entries number (list_at self.old.entries number ++ address ∷ [])) }
    {
        self.seen.reserve(1)?;
        let is_first = push_at(&mut self.lists, number, address)?;
        if is_first {
            self.seen.push_reserved(seen_at(&self.lists, number));
        }
        Ok(())
    }

    /// The shard of the names that were seen. No list has addresses left.
    pub(crate) fn make(&mut self, alloc: Global, range: Range) -> Result<Shard, AllocError>
        requires { (tokens : List (List ℕ)) × HaveTokens self.old range tokens }
        ensures words { IfOk result (λ shard. (tokens : List (List ℕ)) → HaveTokens self.old range tokens →
            words_of shard ≡ words_from range.first tokens) }
        ensures range { IfOk result (λ shard. shard.range ≡ range) }
    {
        let mut maker = roomy(alloc, range, self.seen.len())?;
        let has_run = self.hint.has_run(self.lists.len(), self.seen.len());
        sort_seen(&self.lists, &mut self.seen, has_run);
        hand_over(&mut self.lists, &mut self.seen, &mut maker)?;
        Ok(maker.finish())
    }

    /// Forgets the names above a bound, those that were met last.
    pub(crate) fn bound(&mut self) {
        if self.lists.len() > MOST_NAMES {
            clear_all(&mut self.lists, &mut self.seen);
            forget_above(&mut self.lists, &mut self.numbers, MOST_NAMES);
            self.lists.shrink_to(2 * MOST_NAMES);
            shrink_numbers(&mut self.numbers, 2 * MOST_NAMES);
        }
    }
}

/// A shard that is to be made, with room for this many terms.
fn roomy(alloc: Global, range: Range, terms: usize) -> Result<ShardMaker, AllocError>
    ensures range { IfOk result (λ maker. maker.range ≡ range) }
    ensures table { IfOk result (λ maker. maker.table ≡ []) }
{
    let mut maker = ShardMaker::new(alloc, range);
    maker.reserve(Room {
        terms,
        bytes: terms.saturating_mul(NAME_BYTES),
        packed: terms.saturating_mul(LIST_BYTES),
        long: RowsRoom::NONE,
    })?;
    Ok(maker)
}

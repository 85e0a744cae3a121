ghost use Rattle.std.specs.Prelude.{◌≡◌, ◌+◌, ◌≤◌, ℕ, List, ◌++◌, length, IfOk, OnOk};
ghost use Rattle.gcl_model.specs.Collections.{words_from};
ghost use Rattle.gcl_model.specs.FormOf.{form_of};
ghost use Rattle.gcl_model.specs.Limits.{most_file};
ghost use Rattle.gcl_model.specs.Texts.{Word, IsText, places};
ghost use Rattle.gcl_model.specs.Tokens.{tokens_of};
ghost use Rattle.text_search.specs.Names.{query_text};
ghost use Rattle.text_search.specs.Tables.{filled, AreClimbing};

use crate::names::put_names;
use crate::table::TermTable;
use gcl_model::{Expr, Span};
use std::alloc::{AllocError, Global};
use std::marker::Model;
use token_places::{PlaceCursor, PlacedToken};

/// A file that is searched by itself, with the addresses of the tokens that an expression names.
#[derive(Drop)]
pub struct QueryText<'a> {
    bytes: &'a [u8],
    next: u32,
    table: TermTable,
}

impl<'a> Model for QueryText<'a> {
    ghost use Rattle.gcl_model.specs.Texts.{Text};
    ghost use Rattle.text_search.specs.FileTexts.{file_text};
    ghost use Rattle.text_search.specs.Kept.{IsKept};
    ghost use Rattle.text_search.specs.Names.{named_text};
    ghost use Rattle.text_search.specs.Tables.{tokens_in};

    ghost Value = { Text };

    ghost view = { λ q. named_text (tokens_in q.table) (file_text q.bytes.now) };

    ghost invariant = { λ q. IsKept q.bytes.now q.next q.table };
}

impl<'a> QueryText<'a> {
    /// What a file has of the tokens that the expression names, from one pass over its bytes. It takes memory for the names, and four
    /// bytes or more for each of their places. Err means out of memory.
    pub fn of(alloc: Global, bytes: &'a [u8], expr: &Expr) -> Result<Self, AllocError>
        requires { length bytes.now ≤ most_file }
        ensures { IfOk result (λ text. text ≡ query_text bytes.now (form_of expr.now)) }
    {
        let mut table = TermTable::new(alloc)?;
        put_names(alloc, expr, &mut table)?;
        table.note(&PlacedToken::file_start(), 0)?;
        let last = note_tokens(bytes, &mut table)?;
        table.note(&PlacedToken::file_end(bytes.len()), last)?;
        Ok(QueryText {
            bytes,
            next: last + 1,
            table,
        })
    }

    /// The addresses that hold the token: none if the expression does not name it.
    pub fn places(&self, token: &[u8]) -> &[u32]
        ensures places { result.now ≡ places self.now.words token.now }
        ensures climbing { AreClimbing result.now }
        ensures sound { IsText self.now }
    {
        self.table.places(token)
    }

    /// Whether one of the kept words begins with these bytes, and occurs in the file.
    pub fn has_word_from(&self, prefix: &[u8]) -> bool {
        self.table.has_word_from(prefix)
    }

    /// The addresses of the file.
    pub(crate) fn addresses(&self) -> Span
        ensures first { result.first ≡ self.now.first }
        ensures next { result.next ≡ self.now.next }
        ensures sound { IsText self.now }
    {
        Span {
            first: 0,
            next: self.next as u64,
        }
    }
}

/// Adds the addresses of the tokens of a text to those in the table, and returns the address after them.
fn note_tokens(bytes: &[u8], table: &mut TermTable) -> Result<u32, AllocError>
    requires { length bytes.now ≤ most_file }
    ensures last { IfOk result (λ last. last ≡ length (tokens_of bytes.now) + 1) }
    ensures noted { OnOk result ((words : List Word) (names : List (List ℕ)) → table.old ≡ filled words names →
        table.new ≡ filled (words ++ words_from 1 (tokens_of bytes.now)) names) }
{
    let mut cursor = PlaceCursor::new(bytes);
    let mut passed = 0;
    while let Some(token) = cursor.next() {
        passed += 1;
        table.note(&token, passed)?;
    }
    Ok(passed + 1)
}

ghost use Rattle.std.specs.Prelude.{◌≡◌, ◌≤◌, ◌↔◌, ℕ, true, false, [], ◌∷◌, ◌++◌, option_map, IfOk, IfSome, IsNone, IsTrue, OnErr, OnOk};
ghost use Rattle.gcl_model.specs.Limits.{address_end};
ghost use Rattle.std.specs.List.{AllByRecursion};
ghost use Rattle.index_shard.specs.Tables.{AreApart, ArePostingsIn, ComesBefore, IsShard, last_entry};
ghost use Rattle.live_version.specs.Contents.{is_of_files};
ghost use Rattle.image_read.specs.Reading.{HasNoTerms, HasNoText, HasRole, IsTextFront, is_seen};
ghost use Rattle.image_read.specs.Tables.{AreReadTerms, HasNoNextTerm, HasNoTerm, HoldsTerms, IsRangeOf, IsTermFront, PutsTerm, last_term};

use crate::addresses::read_addresses;
use crate::front::{TextFront, eight_in_front, four_in_front, packed_in_front, text_of_len};
use crate::head::Head;
use crate::places::{Places, Role};
use address_space::Range;
use gcl_model::{file_end, file_start};
use image_file::Format;
use index_shard::{Shard, ShardMaker, head_of};
use posting_code::{BLOCK, PackedMaker};
use std::alloc::{AllocError, Global};
use std::cmp::Ordering;
use word_tokens::is_token;

/// A term at the front of some bytes, its role, and what comes after it.
#[derive(Clone, Copy)]
struct TermFront<'a> {
    text: &'a [u8],
    role: Role,
    rest: &'a [u8],
}

/// As many terms as the bytes say and nothing after them, if the words of all terms fill the places.
pub(crate) fn read_terms(
    alloc: Global,
    head: Head,
    range: Range,
    places: &mut Places<'_>,
    bytes: &[u8],
) -> Result<Option<Shard>, AllocError>
    requires ordered { head.first ≤ head.next }
    requires in_range { head.next ≤ address_end }
    requires range { IsRangeOf range places.old.files }
    requires unseen { (p : ℕ) → is_seen places.old p ≡ false }
    ensures some { IfOk result
        (λ found. IfSome found (λ shard. AreReadTerms head.format head.first head.next places.old.files bytes.now shard.table)) }
    ensures range { IfOk result (λ found. IfSome found (λ shard. shard.range ≡ range)) }
    ensures shard { IfOk result (λ found. IfSome found IsShard) }
    ensures none { IfOk result (λ found. IsNone found → HasNoTerms head.format head.first head.next places.old.files bytes.now) }
{
    let Some(count) = eight_in_front(bytes) else {
        return Ok(None);
    };
    let mut maker = ShardMaker::new(alloc, range);
    let mut last = None;
    let mut rest = count.rest;
    for i in 0..count.value {
        let Some(term) = next_term(alloc, head, places, &mut maker, last, rest)? else {
            return Ok(None);
        };
        last = Some(term.text);
        rest = term.rest;
    }
    if !is_end(rest, places) {
        return Ok(None);
    }
    Ok(Some(maker.finish()))
}

/// Whether nothing follows, and each address of the files is listed under a term.
fn is_end(rest: &[u8], places: &Places<'_>) -> bool
    ensures { IsTrue result ↔ (rest.now ≡ []) × ((p : ℕ) → is_of_files places.now.files p ≡ true → is_seen places.now p ≡ true) }
{
    rest.is_empty() && places.is_full()
}

/// Appends the next term with its addresses.
fn next_term<'a>(
    alloc: Global,
    head: Head,
    places: &mut Places<'_>,
    maker: &mut ShardMaker,
    last: Option<&'a [u8]>,
    bytes: &'a [u8],
) -> Result<Option<TextFront<'a>>, AllocError>
    requires ordered { head.first ≤ head.next }
    requires in_range { head.next ≤ address_end }
    requires range { IsRangeOf maker.old.range places.old.files }
    requires last { option_map (λ t. t.now) last ≡ last_term maker.old.table }
    requires holds { HoldsTerms head.format head.first head.next places.old maker.old.table }
    ensures some { IfOk result
        (λ found. IfSome found (λ f. PutsTerm head.format head.first maker.old.table maker.new.table bytes.now f.text.now f.rest.now)) }
    ensures range { IfOk result (λ found. maker.new.range ≡ maker.old.range) }
    ensures files { IfOk result (λ found. places.new.files ≡ places.old.files) }
    ensures holds { IfOk result (λ found. IfSome found (λ f. HoldsTerms head.format head.first head.next places.new maker.new.table)) }
    ensures none { IfOk result (λ found. IsNone found →
        HasNoNextTerm head.format head.first head.next places.old.files maker.old.table bytes.now) }
{
    let Some(term) = term_in_front(head.format, last, bytes) else {
        return Ok(None);
    };
    let Some(list) = read_addresses(alloc, head, places, term.role, term.rest)? else {
        return Ok(None);
    };
    let rest = list.rest();
    put_list(alloc, maker, term.text, list)?;
    Ok(Some(TextFront {
        text: term.text,
        rest,
    }))
}

/// Appends a term. A list of one block is copied from the bytes to where those of all terms are.
fn put_list(
    alloc: Global,
    maker: &mut ShardMaker,
    term: &[u8],
    list: PackedMaker<'_>,
) -> Result<(), AllocError>
    requires rising { IfSome (last_entry maker.old.table) (λ last. ComesBefore last.term term.now) }
    requires postings { ArePostingsIn maker.old.range list.list }
    requires apart { AllByRecursion (λ entry. AreApart entry.addresses list.list) maker.old.table }
    ensures ok { OnOk result
        (maker.new ≡ record maker.old { table = maker.old.table ++ record { term = term.now; addresses = list.entry.list } ∷ [] }) }
    ensures err { OnErr result (maker.new ≡ maker.old) }
{
    if list.len() > BLOCK {
        let list = list.finish(alloc)?;
        return maker.push_list(term, list);
    }
    maker.push_parts(head_of(term), term, &[list.as_block()])
}

/// The term at the front of some bytes, if it comes after the last one.
fn term_in_front<'a>(
    format: Format,
    last: Option<&'a [u8]>,
    bytes: &'a [u8],
) -> Option<TermFront<'a>>
    ensures some { IfSome result (λ f. IsTermFront format (option_map (λ t. t.now) last.entry) bytes.now f.text.now f.role f.rest.now) }
    ensures none { IsNone result → HasNoTerm format (option_map (λ t. t.now) last.entry) bytes.now }
{
    let term = text_in_front(format, bytes)?;
    let role = role_of(term.text)?;
    if !comes_behind(last, term.text) {
        return None;
    }
    Some(TermFront {
        text: term.text,
        role,
        rest: term.rest,
    })
}

/// Whether the term comes after the last one, if there is one.
fn comes_behind(last: Option<&[u8]>, term: &[u8]) -> bool
    ensures { IsTrue result ↔ IfSome (option_map (λ t. t.now) last.entry) (λ l. ComesBefore l term.now) }
{
    match last {
        Some(last) => match last.cmp(term) {
            Ordering::Less => true,
            _ => false,
        },
        None => true,
    }
}

/// What a term stands for, or None if it is no term.
fn role_of(term: &[u8]) -> Option<Role>
    ensures some { IfSome result (λ role. HasRole term.now role) }
    ensures none { IsNone result → (role : Role) → HasRole term.now role → ⊥ }
{
    if term == file_start() {
        return Some(Role::Start);
    }
    if term == file_end() {
        return Some(Role::End);
    }
    if is_token(term) {
        return Some(Role::Inner);
    }
    None
}

fn text_in_front(format: Format, bytes: &[u8]) -> Option<TextFront<'_>>
    ensures some { IfSome result (λ f. IsTextFront format bytes.now f.text.now f.rest.now) }
    ensures none { IsNone result → HasNoText format bytes.now }
{
    match format {
        Format::One => {
            let len = four_in_front(bytes)?;
            text_of_len(len.rest, len.value)
        }
        Format::Two => {
            let len = packed_in_front(bytes)?;
            text_of_len(len.rest, len.value)
        }
    }
}

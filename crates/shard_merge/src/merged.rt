ghost use Rattle.std.specs.Prelude.{◌≡◌, ◌<◌, [], List, ℕ, false, length, IfOk, IsTrue, OnOk};
ghost use Rattle.std.specs.List.{AllByRecursion, concat};
ghost use Rattle.gcl_model.specs.Texts.{Word};
ghost use Rattle.index_shard.specs.Tables.{IsShard, postings_of};
ghost use Rattle.slot_terms.specs.Parts.{IsPart, postings_left};
ghost use Rattle.shard_merge.specs.Merged.{AreWordsOf};

use address_space::Range;
use index_shard::{Shard, ShardMaker};
use posting_code::Postings;
use slot_terms::SlotTerms;
use std::alloc::{AllocError, Global};

/// The shard of the terms that are still to come, except those without a live posting. The live part of a list is appended as it is
/// packed.
pub(crate) fn merge_terms(
    alloc: Global,
    range: Range,
    terms: &mut SlotTerms<'_>,
) -> Result<Shard, AllocError>
    requires parts { AllByRecursion IsPart terms.old }
    requires words { (words : List Word) × AreWordsOf range terms.old words }
    ensures range { IfOk result (λ shard. shard.range ≡ range) }
    ensures postings { IfOk result (λ shard. (term : List ℕ) → postings_of shard.table term ≡ postings_left terms.old term) }
    ensures shard { IfOk result IsShard }
{
    // Its first address is read so that the end of the range is known to be in bounds.
    let _ = &range.first;
    let mut maker = ShardMaker::new(alloc, range);
    maker.reserve(terms.room())?;
    push_terms(alloc, &mut maker, terms)?;
    Ok(maker.finish())
}

/// Puts the terms that are still to come into the shard, which has none yet.
fn push_terms(
    alloc: Global,
    maker: &mut ShardMaker,
    terms: &mut SlotTerms<'_>,
) -> Result<(), AllocError>
    requires parts { AllByRecursion IsPart terms.old }
    requires words { (words : List Word) × AreWordsOf maker.old.range terms.old words }
    requires empty { maker.old.table ≡ [] }
    ensures range { OnOk result (maker.new.range ≡ maker.old.range) }
    ensures postings { OnOk result ((term : List ℕ) → postings_of maker.new.table term ≡ postings_left terms.old term) }
{
    let mut lists = Vec::new(alloc);
    while let Some((head, term)) = terms.next_lists(&mut lists)? {
        if has_some(&lists) {
            maker.push_parts(head, term, &lists)?;
        }
    }
    Ok(())
}

/// Whether one of the lists has a member.
fn has_some(lists: &[Postings<'_>]) -> bool
    ensures some { IsTrue result → 0 < length (concat lists.now) }
    ensures none { result ≡ false → concat lists.now ≡ [] }
{
    for list in lists {
        if list.len() > 0 {
            return true;
        }
    }
    false
}

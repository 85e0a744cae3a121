ghost use Rattle.std.specs.Prelude.{◌≡◌, ◌^◌, ◌<◌, ◌++◌, List, ℕ, length, take, IfOk, IfSome, OnErr, OnOk};
ghost use Rattle.std.specs.List.{concat};
ghost use Rattle.posting_code.specs.Joined.{last_in, step_from};
ghost use Rattle.posting_code.specs.Packed.{packed_of};
ghost use Rattle.posting_code.specs.Postings.{ArePostings};

use crate::number::put_number;
use crate::posting_list::Postings;
use std::alloc::AllocError;

/// Appends the packed differences of some lists, as those of one list. None is unpacked. After an Err some of them may have been
/// appended.
pub fn put_joined(packed: &mut Vec<u8>, lists: &[Postings<'_>]) -> Result<(), AllocError>
    requires { ArePostings (concat lists.now) }
    ensures ok { OnOk result (packed.new.items ≡ packed.old.items ++ packed_of (concat lists.now)) }
    ensures before { take (length packed.old.items) packed.new.items ≡ packed.old.items }
{
    // a list alone, as most are, has no step before it
    if let [list] = lists {
        packed.extend_from_slice(list.packed())?;
        return Ok(());
    }
    let mut last = None;
    for list in lists {
        last = put_next(packed, last, list)?;
    }
    Ok(())
}

/// Appends the packed differences of one more list to those of others, whose last member is given, and returns the last of all.
pub(crate) fn put_next(
    packed: &mut Vec<u8>,
    last: Option<u64>,
    list: &Postings<'_>,
) -> Result<Option<u64>, AllocError>
    requires { (front : List ℕ) × (last ≡ last_in front) × ArePostings (front ++ list.now) }
    ensures last { (front : List ℕ) → last ≡ last_in front → IfOk result (λ now. now ≡ last_in (front ++ list.now)) }
    ensures put { (front base : List ℕ) → last ≡ last_in front → packed.old.items ≡ base ++ packed_of front →
        IfOk result (λ now. packed.new.items ≡ base ++ packed_of (front ++ list.now)) }
    ensures before { take (length packed.old.items) packed.new.items ≡ packed.old.items }
{
    let count = list.len();
    if count == 0 {
        return Ok(last);
    }
    let first = list.first();
    put_step(packed, last, first)?;
    packed.extend_from_slice(list.packed())?;
    Ok(Some(list.last()))
}

/// Appends the difference from the last member of a list to the first of the next one, if there is a list before.
fn put_step(packed: &mut Vec<u8>, last: Option<u64>, first: u64) -> Result<(), AllocError>
    requires above { IfSome last (λ last. last < first) }
    requires small { first < 2 ^ 56 }
    ensures ok { OnOk result (packed.new.items ≡ packed.old.items ++ step_from last first) }
    ensures err { OnErr result (packed.new.items ≡ packed.old.items) }
{
    match last {
        Some(last) => put_number(packed, first - last),
        None => Ok(()),
    }
}

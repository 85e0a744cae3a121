ghost use Rattle.std.specs.Prelude.{◌≡◌, ◌<◌, ◌++◌, [], length, map, IfOk, OnOk};
ghost use Rattle.std.specs.List.{AllByRecursion};
ghost use Rattle.posting_code.specs.Numbers.{number_end};
ghost use Rattle.gcl_model.specs.Limits.{address_end};
ghost use Rattle.posting_code.specs.Packed.{packed_from};
ghost use Rattle.posting_code.specs.Postings.{RiseWithin};
ghost use Rattle.live_version.specs.Contents.{live_of};
ghost use Rattle.slot_terms.specs.Parts.{IsPart, part_of};
ghost use Rattle.image_file.specs.Fields.{short_term};
ghost use Rattle.image_file.specs.Written.{IsTermText};

use crate::numbers::put_text;
use live_version::Version;
use posting_code::put_number;
use slot_terms::SlotTerms;
use std::alloc::{AllocError, Global};

/// The spelling of some terms, and their number.
#[derive(Drop)]
pub(crate) struct TermText {
    pub(crate) count: u64,
    pub(crate) bytes: Vec<u8>,
}

/// The terms that have a live posting.
pub(crate) fn terms_text(alloc: Global, version: &Version) -> Result<TermText, AllocError>
    requires { AllByRecursion (λ w. length w.token < number_end) (live_of version.now.slots) }
    ensures { IfOk result (λ text. IsTermText version.now text.count text.bytes.items) }
{
    let mut terms = SlotTerms::new(alloc, version.slots())?;
    let mut text = TermText {
        count: 0,
        bytes: Vec::new(alloc),
    };
    put_terms(alloc, version, &mut terms, &mut text)?;
    Ok(text)
}

/// Appends the terms of all slots to the text, which has none yet.
fn put_terms(
    alloc: Global,
    version: &Version,
    terms: &mut SlotTerms<'_>,
    text: &mut TermText,
) -> Result<(), AllocError>
    requires short { AllByRecursion (λ w. length w.token < number_end) (live_of version.now.slots) }
    requires terms { terms.old ≡ map part_of version.now.slots }
    requires parts { AllByRecursion IsPart terms.old }
    requires count { text.old.count ≡ 0 }
    requires bytes { text.old.bytes.items ≡ [] }
    ensures { OnOk result (IsTermText version.now text.new.count text.new.bytes.items) }
{
    let first = version.first();
    let mut addresses = Vec::new(alloc);
    while let Some(term) = terms.next(&mut addresses)? {
        if !addresses.is_empty() {
            put_term(&mut text.bytes, first, term, &addresses)?;
            text.count += 1;
        }
    }
    Ok(())
}

/// Appends a term and its addresses.
fn put_term(out: &mut Vec<u8>, first: u64, term: &[u8], addresses: &[u64]) -> Result<(), AllocError>
    requires short { length term.now < number_end }
    requires some { 0 < length addresses.now }
    requires rising { RiseWithin first address_end addresses.now }
    ensures { OnOk result (out.new.items ≡ out.old.items ++ short_term first (record { term = term.now; addresses = addresses.now })) }
{
    put_text(out, term)?;
    put_number(out, addresses.len() as u64 - 1)?;
    put_differences(out, first, addresses)?;
    Ok(())
}

/// Appends each address, as its difference from the one before.
fn put_differences(out: &mut Vec<u8>, from: u64, addresses: &[u64]) -> Result<(), AllocError>
    requires { RiseWithin from address_end addresses.now }
    ensures { OnOk result (out.new.items ≡ out.old.items ++ packed_from from addresses.now) }
{
    let mut before = from;
    for address in addresses {
        put_number(out, *address - before)?;
        before = *address;
    }
    Ok(())
}

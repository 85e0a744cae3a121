ghost use Rattle.std.specs.Prelude.{◌≡◌, ◌+◌, ◌≤◌, IfOk};
ghost use Rattle.live_version.specs.Contents.{IsVersion, live_of};
ghost use Rattle.prefix_terms.specs.Costs.{prefix_cost};
ghost use Rattle.prefix_terms.specs.Runs.{run_costs, tokens_in};
ghost use Rattle.wide_terms.specs.Vocabulary.{matching_words};

use crate::live::live_run;
use crate::merging::merged;
use gcl_model::{Bytes, Ledger, Steps, TokenList};
use live_version::{Slot, Version};
use std::alloc::{AllocError, Global};

/// The words of the version that begin with the prefix, in rising byte order and each once. A word whose postings are all dead does not
/// count. A look-up is made only for a term of a slot with a dead range.
///
/// In `to be or not to be` at address 0, the only word with the prefix `o` is `or`, and the only one with the prefix `to` is `to`.
pub fn matching<S: Ledger>(
    alloc: Global,
    version: &Version,
    prefix: &[u8],
    steps: &mut Steps<S>,
) -> Result<TokenList, AllocError>
    ensures words { IfOk result (λ words. words ≡ matching_words (live_of version.now.slots) prefix.now) }
    ensures counted { steps.old ≤ steps.new }
    ensures cost { steps.new ≤ steps.old + prefix_cost version.now prefix.now }
    ensures version { IsVersion version.now }
{
    let words = matching_in(alloc, version.slots(), prefix, steps)?;
    tokens_of(alloc, words.as_slice())
}

/// The words of some slots that begin with the prefix.
fn matching_in<'a, S: Ledger>(
    alloc: Global,
    slots: &'a [Slot],
    prefix: &[u8],
    steps: &mut Steps<S>,
) -> Result<Vec<&'a [u8]>, AllocError>
    ensures words { IfOk result (λ words. tokens_in words.items ≡ matching_words (live_of slots.now) prefix.now) }
    ensures counted { steps.old ≤ steps.new }
    ensures cost { steps.new ≤ steps.old + run_costs prefix.now slots.now }
{
    let mut words = Vec::new(alloc);
    for slot in slots {
        let run = live_run(alloc, slot, prefix, steps)?;
        words = merged(alloc, words.as_slice(), run.as_slice())?;
    }
    Ok(words)
}

/// A copy of these words.
fn tokens_of(alloc: Global, words: &[&[u8]]) -> Result<TokenList, AllocError>
    ensures { IfOk result (λ tokens. tokens ≡ tokens_in words.now) }
{
    let mut tokens = TokenList::new(alloc);
    for word in words {
        tokens.push(Bytes::copy_of(alloc, word)?)?;
    }
    Ok(tokens)
}

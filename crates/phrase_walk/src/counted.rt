ghost use Rattle.std.specs.Prelude.{◌≡◌, ℕ, ◌+◌, ◌-◌, ◌<◌, ◌≤◌, length, IfOk};
ghost use Rattle.gcl_model.specs.Limits.{far};
ghost use Rattle.gcl_model.specs.Access.{first_start, first_end, last_end, last_start};
ghost use Rattle.gcl_model.specs.Forms.{phrase};
ghost use Rattle.gcl_model.specs.Meaning.{concordance};
ghost use Rattle.gcl_model.specs.Cost.{cost};
ghost use Rattle.phrase_walk.specs.Rounds.{rounds_cost, passed_cost};

use crate::walks::{first_from, last_upto};
use gcl_model::{CountedLeaves, Interval, TokenList};

/// The first interval of the phrase that starts at or after `k`, looked up on the caller's counter. It stops if a look-up is refused, and
/// so do the other three.
pub fn counted_first_start<C: CountedLeaves>(
    tokens: &TokenList,
    source: &C,
    k: u64,
    counter: &mut C::Counter,
) -> Result<Option<Interval>, C::Stop>
    requires tokens { 2 ≤ length tokens.now }
    requires address { k < far }
    ensures answer { IfOk result (λ found. found ≡ first_start (concordance (C.text source.now) (phrase tokens.now)) k) }
    ensures counted { C.count counter.old ≤ C.count counter.new }
    ensures cost { IfOk result (λ _. C.count counter.new ≤ C.count counter.old +
        cost (C.text source.now) (C.most source.now) (phrase tokens.now)) }
    ensures rounds { IfOk result (λ _. C.count counter.new ≤ C.count counter.old +
        rounds_cost (C.text source.now).words (C.most source.now) tokens.now) }
    ensures passed { IfOk result (λ found. C.count counter.new ≤ C.count counter.old +
        passed_cost (C.text source.now) (C.most source.now) tokens.now k found) }
    ensures capped { (cap : ℕ) → C.Caps source.now cap → C.count counter.old ≤ cap → C.count counter.new ≤ cap }
{
    first_from(tokens.as_slice(), source, k, counter)
}

/// The first that ends at or after `k`.
pub fn counted_first_end<C: CountedLeaves>(
    tokens: &TokenList,
    source: &C,
    k: u64,
    counter: &mut C::Counter,
) -> Result<Option<Interval>, C::Stop>
    requires tokens { 2 ≤ length tokens.now }
    requires address { k < far }
    ensures answer { IfOk result (λ found. found ≡ first_end (concordance (C.text source.now) (phrase tokens.now)) k) }
    ensures counted { C.count counter.old ≤ C.count counter.new }
    ensures cost { IfOk result (λ _. C.count counter.new ≤ C.count counter.old +
        cost (C.text source.now) (C.most source.now) (phrase tokens.now)) }
    ensures rounds { IfOk result (λ _. C.count counter.new ≤ C.count counter.old +
        rounds_cost (C.text source.now).words (C.most source.now) tokens.now) }
    ensures passed { IfOk result (λ found. C.count counter.new ≤ C.count counter.old +
        passed_cost (C.text source.now) (C.most source.now) tokens.now (k - (length tokens.now - 1)) found) }
    ensures capped { (cap : ℕ) → C.Caps source.now cap → C.count counter.old ≤ cap → C.count counter.new ≤ cap }
{
    let len = tokens.len() as u64;
    first_from(
        tokens.as_slice(),
        source,
        k.saturating_sub(len - 1),
        counter,
    )
}

/// The last that ends at or before `k`.
pub fn counted_last_end<C: CountedLeaves>(
    tokens: &TokenList,
    source: &C,
    k: u64,
    counter: &mut C::Counter,
) -> Result<Option<Interval>, C::Stop>
    requires tokens { 2 ≤ length tokens.now }
    requires address { k < far }
    ensures answer { IfOk result (λ found. found ≡ last_end (concordance (C.text source.now) (phrase tokens.now)) k) }
    ensures counted { C.count counter.old ≤ C.count counter.new }
    ensures cost { IfOk result (λ _. C.count counter.new ≤ C.count counter.old +
        cost (C.text source.now) (C.most source.now) (phrase tokens.now)) }
    ensures rounds { IfOk result (λ _. C.count counter.new ≤ C.count counter.old +
        rounds_cost (C.text source.now).words (C.most source.now) tokens.now) }
    ensures capped { (cap : ℕ) → C.Caps source.now cap → C.count counter.old ≤ cap → C.count counter.new ≤ cap }
{
    let len = tokens.len() as u64;
    let Some(start) = k.checked_sub(len - 1) else {
        return Ok(None);
    };
    last_upto(tokens.as_slice(), source, start, counter)
}

/// The last that starts at or before `k`.
pub fn counted_last_start<C: CountedLeaves>(
    tokens: &TokenList,
    source: &C,
    k: u64,
    counter: &mut C::Counter,
) -> Result<Option<Interval>, C::Stop>
    requires tokens { 2 ≤ length tokens.now }
    requires address { k < far }
    ensures answer { IfOk result (λ found. found ≡ last_start (concordance (C.text source.now) (phrase tokens.now)) k) }
    ensures counted { C.count counter.old ≤ C.count counter.new }
    ensures cost { IfOk result (λ _. C.count counter.new ≤ C.count counter.old +
        cost (C.text source.now) (C.most source.now) (phrase tokens.now)) }
    ensures rounds { IfOk result (λ _. C.count counter.new ≤ C.count counter.old +
        rounds_cost (C.text source.now).words (C.most source.now) tokens.now) }
    ensures capped { (cap : ℕ) → C.Caps source.now cap → C.count counter.old ≤ cap → C.count counter.new ≤ cap }
{
    last_upto(tokens.as_slice(), source, k, counter)
}

ghost use Rattle.std.specs.Prelude.{◌≡◌, ◌+◌, ◌-◌, ◌<◌, ◌≤◌, length};
ghost use Rattle.gcl_model.specs.Limits.{far};
ghost use Rattle.gcl_model.specs.Access.{first_start, first_end, last_end, last_start};
ghost use Rattle.gcl_model.specs.Forms.{phrase};
ghost use Rattle.gcl_model.specs.Meaning.{concordance};
ghost use Rattle.gcl_model.specs.Cost.{cost};
ghost use Rattle.phrase_walk.specs.Rounds.{rounds_cost, passed_cost};

use crate::counted::{
    counted_first_end, counted_first_start, counted_last_end, counted_last_start,
};
use gcl_model::{Interval, Leaves, Ledger, LentLeaves, Steps, TokenList};

/// The first interval of the phrase that starts at or after `k`.
pub fn phrase_first_start<L: Leaves, S: Ledger>(
    tokens: &TokenList,
    leaves: &L,
    k: u64,
    steps: &mut Steps<S>,
) -> Option<Interval>
    requires tokens { 2 ≤ length tokens.now }
    requires address { k < far }
    ensures answer { result ≡ first_start (concordance (L.text leaves.now) (phrase tokens.now)) k }
    ensures counted { steps.old ≤ steps.new }
    ensures cost { steps.new ≤ steps.old + cost (L.text leaves.now) (L.most leaves.now) (phrase tokens.now) }
    ensures rounds { steps.new ≤ steps.old + rounds_cost (L.text leaves.now).words (L.most leaves.now) tokens.now }
    ensures passed { steps.new ≤ steps.old + passed_cost (L.text leaves.now) (L.most leaves.now) tokens.now k result }
{
    let source = LentLeaves::<L, S>::new(leaves);
    let Ok(found) = counted_first_start(tokens, &source, k, steps);
    found
}

/// The first that ends at or after `k`.
pub fn phrase_first_end<L: Leaves, S: Ledger>(
    tokens: &TokenList,
    leaves: &L,
    k: u64,
    steps: &mut Steps<S>,
) -> Option<Interval>
    requires tokens { 2 ≤ length tokens.now }
    requires address { k < far }
    ensures answer { result ≡ first_end (concordance (L.text leaves.now) (phrase tokens.now)) k }
    ensures counted { steps.old ≤ steps.new }
    ensures cost { steps.new ≤ steps.old + cost (L.text leaves.now) (L.most leaves.now) (phrase tokens.now) }
    ensures rounds { steps.new ≤ steps.old + rounds_cost (L.text leaves.now).words (L.most leaves.now) tokens.now }
    ensures passed { steps.new ≤ steps.old +
        passed_cost (L.text leaves.now) (L.most leaves.now) tokens.now (k - (length tokens.now - 1)) result }
{
    let source = LentLeaves::<L, S>::new(leaves);
    let Ok(found) = counted_first_end(tokens, &source, k, steps);
    found
}

/// The last that ends at or before `k`.
pub fn phrase_last_end<L: Leaves, S: Ledger>(
    tokens: &TokenList,
    leaves: &L,
    k: u64,
    steps: &mut Steps<S>,
) -> Option<Interval>
    requires tokens { 2 ≤ length tokens.now }
    requires address { k < far }
    ensures answer { result ≡ last_end (concordance (L.text leaves.now) (phrase tokens.now)) k }
    ensures counted { steps.old ≤ steps.new }
    ensures cost { steps.new ≤ steps.old + cost (L.text leaves.now) (L.most leaves.now) (phrase tokens.now) }
    ensures rounds { steps.new ≤ steps.old + rounds_cost (L.text leaves.now).words (L.most leaves.now) tokens.now }
{
    let source = LentLeaves::<L, S>::new(leaves);
    let Ok(found) = counted_last_end(tokens, &source, k, steps);
    found
}

/// The last that starts at or before `k`.
pub fn phrase_last_start<L: Leaves, S: Ledger>(
    tokens: &TokenList,
    leaves: &L,
    k: u64,
    steps: &mut Steps<S>,
) -> Option<Interval>
    requires tokens { 2 ≤ length tokens.now }
    requires address { k < far }
    ensures answer { result ≡ last_start (concordance (L.text leaves.now) (phrase tokens.now)) k }
    ensures counted { steps.old ≤ steps.new }
    ensures cost { steps.new ≤ steps.old + cost (L.text leaves.now) (L.most leaves.now) (phrase tokens.now) }
    ensures rounds { steps.new ≤ steps.old + rounds_cost (L.text leaves.now).words (L.most leaves.now) tokens.now }
{
    let source = LentLeaves::<L, S>::new(leaves);
    let Ok(found) = counted_last_start(tokens, &source, k, steps);
    found
}

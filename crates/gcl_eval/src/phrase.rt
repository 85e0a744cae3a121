ghost use Rattle.std.specs.Prelude.{◌≡◌, ◌+◌, ◌<◌, ◌≤◌, length, ℕ, IfOk};
ghost use Rattle.gcl_model.specs.Limits.{far};
ghost use Rattle.gcl_model.specs.Forms.{phrase};
ghost use Rattle.gcl_model.specs.Meaning.{concordance};
ghost use Rattle.gcl_model.specs.Cost.{cost};
ghost use Rattle.gcl_eval.specs.Directions.{access_of};

use crate::direction::Access;
use gcl_model::{CountedLeaves, Interval, TokenList};
use phrase_walk::{counted_first_end, counted_first_start, counted_last_end, counted_last_start};

/// An access of a phrase.
pub(crate) fn phrase_access<C: CountedLeaves>(
    tokens: &TokenList,
    access: Access,
    source: &C,
    k: u64,
    counter: &mut C::Counter,
) -> Result<Option<Interval>, C::Stop>
    requires several { 2 ≤ length tokens.now }
    requires below { k < far }
    ensures answer { IfOk result (λ found. found ≡ access_of access (concordance (C.text source.now) (phrase tokens.now)) k) }
    ensures counted { C.count counter.old ≤ C.count counter.new }
    ensures cost { IfOk result (λ _. C.count counter.new ≤
        C.count counter.old + cost (C.text source.now) (C.most source.now) (phrase tokens.now)) }
    ensures capped { (cap : ℕ) → C.Caps source.now cap → C.count counter.old ≤ cap → C.count counter.new ≤ cap }
{
    match access {
        Access::FirstStart => counted_first_start(tokens, source, k, counter),
        Access::FirstEnd => counted_first_end(tokens, source, k, counter),
        Access::LastEnd => counted_last_end(tokens, source, k, counter),
        Access::LastStart => counted_last_start(tokens, source, k, counter),
    }
}

ghost use Rattle.std.specs.Prelude.{◌≡◌, ◌+◌, ◌≤◌, ℕ, IfOk};
ghost use Rattle.gcl_model.specs.Forms.{term};
ghost use Rattle.gcl_model.specs.Texts.{IsText};
ghost use Rattle.gcl_model.specs.Meaning.{concordance};
ghost use Rattle.gcl_eval.specs.Directions.{access_of, place_of};

use crate::direction::Access;
use gcl_model::{Bytes, CountedLeaves, Interval};

/// An access of a term.
#[inline]
pub(crate) fn term_access<C: CountedLeaves>(
    token: &Bytes,
    access: Access,
    source: &C,
    k: u64,
    counter: &mut C::Counter,
) -> Result<Option<Interval>, C::Stop>
    ensures answer { IfOk result (λ found. found ≡ access_of access (concordance (C.text source.now) (term token.now)) k) }
    ensures counted { C.count counter.old ≤ C.count counter.new }
    ensures cost { C.count counter.new ≤ C.count counter.old + C.most source.now }
    ensures capped { (cap : ℕ) → C.Caps source.now cap → C.count counter.old ≤ cap → C.count counter.new ≤ cap }
{
    let Some(place) = look_up(token.as_slice(), access, source, k, counter)? else {
        return Ok(None);
    };
    Ok(Some(Interval::new(place, place)))
}

/// The place that the access of a term finds: each of its members starts where it ends.
#[inline(always)]
fn look_up<C: CountedLeaves>(
    token: &[u8],
    access: Access,
    source: &C,
    k: u64,
    counter: &mut C::Counter,
) -> Result<Option<u64>, C::Stop>
    ensures answer { IfOk result (λ found. found ≡ place_of access (C.text source.now).words token.now k) }
    ensures sound { IsText (C.text source.now) }
    ensures counted { C.count counter.old ≤ C.count counter.new }
    ensures cost { C.count counter.new ≤ C.count counter.old + C.most source.now }
    ensures capped { (cap : ℕ) → C.Caps source.now cap → C.count counter.old ≤ cap → C.count counter.new ≤ cap }
{
    match access {
        Access::FirstStart | Access::FirstEnd => source.next(token, k, counter),
        Access::LastEnd | Access::LastStart => source.prev(token, k, counter),
    }
}

ghost use Rattle.std.specs.Prelude.{◌≡◌, ℕ, ◌+◌, ◌<◌, ◌≤◌, length, true, IfSome, IfOk};
ghost use Rattle.gcl_model.specs.Limits.{address_end};
ghost use Rattle.gcl_model.specs.Access.{first_start};
ghost use Rattle.gcl_model.specs.Forms.{phrase};
ghost use Rattle.gcl_model.specs.Meaning.{concordance};
ghost use Rattle.gcl_model.specs.Cost.{cost};
ghost use Rattle.phrase_walk.specs.Starts.{IsRow, is_one_word, token_at};

use crate::counted::counted_first_start;
use gcl_model::{CountedLeaves, Interval, TokenList};

/// Whether the phrase repeats one word, as "ha ha ha" does.
pub fn has_one_word(tokens: &TokenList) -> bool
    requires { 1 ≤ length tokens.now }
    ensures { result ≡ is_one_word tokens.now }
{
    let word = first_word(tokens);
    for token in tokens.as_slice() {
        if word != token.as_slice() {
            return false;
        }
    }
    true
}

fn first_word(tokens: &TokenList) -> &[u8]
    requires { 1 ≤ length tokens.now }
    ensures { result.now ≡ token_at tokens.now 0 }
{
    tokens.as_slice()[0].as_slice()
}

/// The first row that starts after the start of this one, of a phrase that repeats one word: if the row goes on by one address, only that
/// address is looked at, since the others are known.
///
/// In `ha ha ha ha` the row of "ha ha ha" after (0, 2) is (1, 3). It stops if a look-up is refused.
pub fn counted_next_row<C: CountedLeaves>(
    tokens: &TokenList,
    source: &C,
    row: Interval,
    counter: &mut C::Counter,
) -> Result<Option<Interval>, C::Stop>
    requires tokens { 2 ≤ length tokens.now }
    requires one_word { is_one_word tokens.now ≡ true }
    requires row { IsRow (C.text source.now) tokens.now row }
    requires below { row.end < address_end }
    ensures answer { IfOk result (λ found. found ≡ first_start (concordance (C.text source.now) (phrase tokens.now)) (row.start + 1)) }
    ensures counted { C.count counter.old ≤ C.count counter.new }
    ensures cost { IfOk result (λ _. C.count counter.new ≤ C.count counter.old +
        cost (C.text source.now) (C.most source.now) (phrase tokens.now)) }
    ensures once { IfOk result (λ found. IfSome found (λ next.
        next.start ≡ row.start + 1 → C.count counter.new ≤ C.count counter.old + C.most source.now)) }
    ensures capped { (cap : ℕ) → C.Caps source.now cap → C.count counter.old ≤ cap → C.count counter.new ≤ cap }
{
    let behind = row.end + 1;
    let Some(place) = source.next(first_word(tokens), behind, counter)? else {
        return Ok(None);
    };
    if place == behind {
        return Ok(Some(Interval::new(row.start + 1, place)));
    }
    counted_first_start(tokens, source, place, counter)
}

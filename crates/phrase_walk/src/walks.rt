ghost use Rattle.std.specs.Prelude.{◌≡◌, ℕ, ◌+◌, ◌<◌, ◌≤◌, length, IfSome, IsNone, IsTrue, IfOk};
ghost use Rattle.gcl_model.specs.Access.{first_start, last_start};
ghost use Rattle.gcl_model.specs.Forms.{phrase};
ghost use Rattle.gcl_model.specs.Meaning.{concordance};
ghost use Rattle.gcl_model.specs.Cost.{cost};
ghost use Rattle.gcl_model.specs.Texts.{IsText};
ghost use Rattle.phrase_walk.specs.Rounds.{rounds_cost, passed_cost};
ghost use Rattle.phrase_walk.specs.Starts.{IsFollowed, IsInPlace, LeadsTo, NoneBefore, NoneFrom};

use gcl_model::{Bytes, CountedLeaves, Interval, Pair};

/// The first row of the tokens that starts at or after `k`. The walk stops if a look-up is refused.
// The tokens are asked in a ring, each for its place in the row from the nearest start that is left. So the walk goes as far as the
// rarest of them lets it, whichever that is, and ends as soon as all agree.
pub(crate) fn first_from<C: CountedLeaves>(
    tokens: &[Bytes],
    source: &C,
    k: u64,
    counter: &mut C::Counter,
) -> Result<Option<Interval>, C::Stop>
    requires { 1 ≤ length tokens.now }
    ensures answer { IfOk result (λ found. found ≡ first_start (concordance (C.text source.now) (phrase tokens.now)) k) }
    ensures counted { C.count counter.old ≤ C.count counter.new }
    ensures cost { IfOk result (λ _. C.count counter.new ≤ C.count counter.old +
        cost (C.text source.now) (C.most source.now) (phrase tokens.now)) }
    ensures rounds { IfOk result (λ _. C.count counter.new ≤ C.count counter.old +
        rounds_cost (C.text source.now).words (C.most source.now) tokens.now) }
    ensures passed { IfOk result (λ found. C.count counter.new ≤ C.count counter.old +
        passed_cost (C.text source.now) (C.most source.now) tokens.now k found) }
    ensures capped { (cap : ℕ) → C.Caps source.now cap → C.count counter.old ≤ cap → C.count counter.new ≤ cap }
{
    let len = tokens.len();
    if source.span().next <= k {
        return Ok(None);
    }
    let mut start = k;
    let mut turn = 0usize;
    let mut agreed = 0usize;
    let mut stands = false;
    while agreed < len {
        let Some(found) = next_token(tokens, source, turn, start, stands, counter)? else {
            return Ok(None);
        };
        // No row starts before this: its token would be before the place.
        let earliest = found.place - turn as u64;
        agreed = if earliest == start { agreed + 1 } else { 1 };
        start = earliest;
        turn = next_turn(turn, len);
        stands = found.followed;
    }
    Ok(Some(Interval::new(start, start + (len as u64 - 1))))
}

/// A place of a token, and whether the next token of the row is known to be right after it.
#[derive(Drop)]
struct Found {
    place: u64,
    followed: bool,
}

/// A place of the token at this turn such that no row that starts at or after `start` has its token before that place. A token that is
/// known to be in its place (`stands`) is not looked up, and neither are the first two if they are known to be side by side.
fn next_token<C: CountedLeaves>(
    tokens: &[Bytes],
    source: &C,
    turn: usize,
    start: u64,
    stands: bool,
    counter: &mut C::Counter,
) -> Result<Option<Found>, C::Stop>
    requires turn { turn < length tokens.now }
    requires start { start < (C.text source.now).next }
    requires sound { IsText (C.text source.now) }
    requires stands { IsTrue stands → IsInPlace (C.text source.now) tokens.now start turn }
    ensures found { IfOk result (λ found. IfSome found (λ led. LeadsTo (C.text source.now) tokens.now turn start led.place)) }
    ensures followed { IfOk result (λ found. IfSome found (λ led. IsTrue led.followed →
        IsFollowed (C.text source.now) tokens.now turn led.place)) }
    ensures none { IfOk result (λ found. IsNone found → NoneFrom (C.text source.now) tokens.now start) }
    ensures counted { C.count counter.old ≤ C.count counter.new }
    ensures cost { IfOk result (λ _. C.count counter.new ≤ C.count counter.old + C.most source.now) }
    ensures capped { (cap : ℕ) → C.Caps source.now cap → C.count counter.old ≤ cap → C.count counter.new ≤ cap }
{
    if stands {
        return Ok(Some(Found {
            place: start + turn as u64,
            followed: false,
        }));
    }
    let pair = earliest_start(tokens, source, turn, start);
    if pair.found {
        return Ok(Some(Found {
            place: pair.at,
            followed: true,
        }));
    }
    let Some(place) = source.next(tokens[turn].as_slice(), pair.at + turn as u64, counter)? else {
        return Ok(None);
    };
    Ok(Some(Found {
        place,
        followed: false,
    }))
}

/// A start at or after this one: no row starts at or after this one and before it. At the first token's turn it is a later one if the
/// source shows, without a look-up, that the second token is nowhere right after the first before it. If it is known to be so there, a
/// pair is found.
fn earliest_start<C: CountedLeaves>(tokens: &[Bytes], source: &C, turn: usize, start: u64) -> Pair
    requires { start < (C.text source.now).next }
    ensures from { start ≤ result.at }
    ensures within { result.at ≤ (C.text source.now).next }
    ensures none { NoneBefore (C.text source.now) tokens.now start result.at }
    ensures found { IsTrue result.found → (turn ≡ 0) × IsInPlace (C.text source.now) tokens.now result.at 0 ×
        IsFollowed (C.text source.now) tokens.now turn result.at }
{
    if turn > 0 || tokens.len() < 2 {
        return Pair {
            at: start,
            found: false,
        };
    }
    // the contract of `span` gives that the text is sound, so a pair lies within it
    let span = source.span();
    let pair = source.earliest_pair(tokens[0].as_slice(), tokens[1].as_slice(), start);
    if pair.found {
        return pair;
    }
    Pair {
        at: pair.at.min(span.next),
        found: false,
    }
}

/// The last row of the tokens that starts at or before `k`. The walk stops if a look-up is refused.
pub(crate) fn last_upto<C: CountedLeaves>(
    tokens: &[Bytes],
    source: &C,
    k: u64,
    counter: &mut C::Counter,
) -> Result<Option<Interval>, C::Stop>
    requires { 1 ≤ length tokens.now }
    ensures answer { IfOk result (λ found. found ≡ last_start (concordance (C.text source.now) (phrase tokens.now)) k) }
    ensures counted { C.count counter.old ≤ C.count counter.new }
    ensures cost { IfOk result (λ _. C.count counter.new ≤ C.count counter.old +
        cost (C.text source.now) (C.most source.now) (phrase tokens.now)) }
    ensures rounds { IfOk result (λ _. C.count counter.new ≤ C.count counter.old +
        rounds_cost (C.text source.now).words (C.most source.now) tokens.now) }
    ensures capped { (cap : ℕ) → C.Caps source.now cap → C.count counter.old ≤ cap → C.count counter.new ≤ cap }
{
    let len = tokens.len();
    let Some(room) = source.span().next.checked_sub(len as u64) else {
        return Ok(None);
    };
    let mut start = k.min(room);
    let mut turn = 0usize;
    let mut agreed = 0usize;
    while agreed < len {
        let at = len - 1 - turn;
        let Some(place) = source.prev(tokens[at].as_slice(), start + at as u64, counter)? else {
            return Ok(None);
        };
        // No row starts after this: its token would come after the last place.
        let Some(latest) = place.checked_sub(at as u64) else {
            return Ok(None);
        };
        agreed = if latest == start { agreed + 1 } else { 1 };
        start = latest;
        turn = next_turn(turn, len);
    }
    Ok(Some(Interval::new(start, start + (len as u64 - 1))))
}

/// The turn after this one: after the last of a round comes the first of the next.
fn next_turn(turn: usize, len: usize) -> usize
    requires { turn < len }
    ensures wraps { turn + 1 ≡ len → result ≡ 0 }
    ensures goes_on { turn + 1 < len → result ≡ turn + 1 }
{
    if turn + 1 == len { 0 } else { turn + 1 }
}

ghost use Rattle.std.specs.Prelude.{◌≡◌, Some, IfSome, IsTrue};
ghost use Rattle.std.specs.RefCell.{ref_mut_value};
ghost use Rattle.gcl_model.specs.Elements.{IsElementFrom, IsElementUpTo};
ghost use Rattle.gcl_model.specs.Texts.{places};
ghost use Rattle.index_shard.specs.Searched.{nearest};
ghost use Rattle.live_version.specs.Contents.{IsVersion, live_of};
ghost use Rattle.term_fingers.specs.Lists.{IsOfUndeleted, LiesOn};

use crate::finger::Finger;
use crate::naming::Naming;
use crate::term::Term;
use crate::undeleted::UndeletedSlots;
use gcl_model::{Direction, Interval};
use std::cell::RefMut;

/// The interval up to the next `second` after the next `first` at or after `k`, and from the last `first` before that, if the blocks that
/// their fingers are on determine it.
#[inline(always)]
pub(crate) fn element_from<'a, J: Naming>(
    first: &Term<'a, J>,
    second: &Term<'a, J>,
    undeleted: &UndeletedSlots<'a, J>,
    k: u64,
) -> Option<Interval>
    requires { IsVersion J.version }
    ensures { IfSome result (IsElementFrom (live_of J.version.slots) first.now.bytes.now second.now.bytes.now k) }
{
    let Some((mut finger, mut behind)) = both_fingers(first, second, undeleted) else {
        return None;
    };
    element_from_by(first, second, &mut finger, &mut behind, k)
}

/// The interval from the last `first` before the next `second` at or after `k`, and up to the next `second` after that `first`, if it ends
/// at or after `k`, and the blocks that their fingers are on determine it.
#[inline(always)]
pub(crate) fn element_up_to<'a, J: Naming>(
    first: &Term<'a, J>,
    second: &Term<'a, J>,
    undeleted: &UndeletedSlots<'a, J>,
    k: u64,
) -> Option<Interval>
    requires { IsVersion J.version }
    ensures { IfSome result (IsElementUpTo (live_of J.version.slots) first.now.bytes.now second.now.bytes.now k) }
{
    let Some((mut finger, mut behind)) = both_fingers(first, second, undeleted) else {
        return None;
    };
    element_up_to_by(first, second, &mut finger, &mut behind, k)
}

/// The fingers of both terms, if they are on the lists of these terms in one slot, and nothing in that slot is dead.
#[inline(always)]
fn both_fingers<'b, 'a, J: Naming>(
    first: &'b Term<'a, J>,
    second: &'b Term<'a, J>,
    undeleted: &UndeletedSlots<'a, J>,
) -> Option<(RefMut<'b, Finger<J>>, RefMut<'b, Finger<J>>)>
    ensures first { IfSome result
        (λ both. IsOfUndeleted J.version.slots first.now.places (ref_mut_value both.0).slot (ref_mut_value both.0).place) }
    ensures second { IfSome result
        (λ both. IsOfUndeleted J.version.slots second.now.places (ref_mut_value both.1).slot (ref_mut_value both.1).place) }
{
    // else another look-up of the term is under way
    let Ok(finger) = first.finger.try_borrow_mut() else {
        return None;
    };
    // a term followed by itself gets no answer: its finger is borrowed already
    let Ok(behind) = second.finger.try_borrow_mut() else {
        return None;
    };
    if !share_undeleted_slot(first, second, undeleted, &finger, &behind) {
        return None;
    }
    Some((finger, behind))
}

/// Whether both fingers are on the lists of their terms in one slot, and nothing in that slot is dead.
#[inline(always)]
fn share_undeleted_slot<'a, J: Naming>(
    first: &Term<'a, J>,
    second: &Term<'a, J>,
    undeleted: &UndeletedSlots<'a, J>,
    finger: &Finger<J>,
    behind: &Finger<J>,
) -> bool
    ensures first { IsTrue result → IsOfUndeleted J.version.slots first.now.places finger.now.slot finger.now.place }
    ensures second { IsTrue result → IsOfUndeleted J.version.slots second.now.places behind.now.slot behind.now.place }
{
    let slot = finger.slot();
    behind.slot() == slot
        && undeleted.is_undeleted(slot)
        && first.has_place(slot, finger.place())
        && second.has_place(slot, behind.place())
}

/// The interval of `element_from`, by a finger of each term.
#[inline(always)]
fn element_from_by<'a, J: Naming>(
    first: &Term<'a, J>,
    second: &Term<'a, J>,
    finger: &mut Finger<J>,
    behind: &mut Finger<J>,
    k: u64,
) -> Option<Interval>
    requires version { IsVersion J.version }
    requires first { IsOfUndeleted J.version.slots first.now.places finger.now.slot finger.now.place }
    requires second { IsOfUndeleted J.version.slots second.now.places behind.now.slot behind.now.place }
    ensures { IfSome result (IsElementFrom (live_of J.version.slots) first.now.bytes.now second.now.bytes.now k) }
{
    let at = nearest_by(first, finger, k, Direction::Forward)?;
    let on = at.checked_add(1)?;
    let end = nearest_by(second, behind, on, Direction::Forward)?;
    let back = end.checked_sub(1)?;
    let start = nearest_by(first, finger, back, Direction::Backward)?;
    Some(Interval::new(start, end))
}

/// The interval of `element_up_to`, by a finger of each term.
#[inline(always)]
fn element_up_to_by<'a, J: Naming>(
    first: &Term<'a, J>,
    second: &Term<'a, J>,
    finger: &mut Finger<J>,
    behind: &mut Finger<J>,
    k: u64,
) -> Option<Interval>
    requires version { IsVersion J.version }
    requires first { IsOfUndeleted J.version.slots first.now.places finger.now.slot finger.now.place }
    requires second { IsOfUndeleted J.version.slots second.now.places behind.now.slot behind.now.place }
    ensures { IfSome result (IsElementUpTo (live_of J.version.slots) first.now.bytes.now second.now.bytes.now k) }
{
    let at = nearest_by(second, behind, k, Direction::Forward)?;
    let before = at.checked_sub(1)?;
    let start = nearest_by(first, finger, before, Direction::Backward)?;
    let on = start.checked_add(1)?;
    let end = nearest_by(second, behind, on, Direction::Forward)?;
    if end < k {
        return None;
    }
    Some(Interval::new(start, end))
}

/// The place of a term in the version that is nearest to `k` on one side, by a finger on its list in a slot in which nothing is dead, if
/// the block that the finger is on reaches around `k`.
#[inline(always)]
fn nearest_by<'a, J: Naming>(
    term: &Term<'a, J>,
    finger: &mut Finger<J>,
    k: u64,
    direction: Direction,
) -> Option<u64>
    requires version { IsVersion J.version }
    requires place { IsOfUndeleted J.version.slots term.now.places finger.now.slot finger.now.place }
    ensures answer { IfSome result (λ p. Some p ≡ nearest direction (places (live_of J.version.slots) term.now.bytes.now) k) }
    ensures side { IfSome result (LiesOn direction k) }
    ensures place { IsOfUndeleted J.version.slots term.now.places finger.new.slot finger.new.place }
{
    finger.at_hand(k, direction)
}

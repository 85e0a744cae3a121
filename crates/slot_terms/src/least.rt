ghost use Rattle.std.specs.Prelude.{◌≡◌, ◌++◌, ◌∷◌, [], List, length, IfSome};
ghost use Rattle.slot_terms.specs.Firsts.{IsFirst};
ghost use Rattle.slot_terms.specs.Leasts.{IsLeastOf};
ghost use Rattle.slot_terms.specs.Parts.{PartContent};

use crate::first::First;
use crate::part::Part;
use std::cmp::Ordering;

/// The least of the first terms of several parts, and which of them have it.
#[derive(Clone, Copy)]
pub(crate) struct Least<'a> {
    pub(crate) first: First<'a>,
    // of the first part that has it
    pub(crate) place: usize,
    // 0 if no other part has it. A number, since the bytes next to a flag are copied in pieces, and reading these as one takes long.
    pub(crate) others: usize,
}

/// The least term that is still to come.
pub(crate) fn least_of<'a>(parts: &[Part<'a>]) -> Option<Least<'a>>
    ensures { IsLeastOf parts.now result }
{
    let mut least = None;
    for place in 0..parts.len() {
        least = with_part(least, &parts[place], place);
    }
    least
}

/// The least term of some parts and of one more, which comes after them.
#[inline]
fn with_part<'a>(least: Option<Least<'a>>, part: &Part<'a>, place: usize) -> Option<Least<'a>>
    requires { IfSome least (λ least. IsFirst least.first) }
    ensures { (parts : List PartContent) → place ≡ length parts → IsLeastOf parts least.entry → IsLeastOf (parts ++ part.now ∷ []) result }
{
    let Some(first) = part.first() else {
        return least;
    };
    let Some(old) = least else {
        return Some(Least {
            first,
            place,
            others: 0,
        });
    };
    match first.order_to(&old.first) {
        Ordering::Less => Some(Least {
            first,
            place,
            others: 0,
        }),
        Ordering::Equal => Some(Least { others: 1, ..old }),
        Ordering::Greater => least,
    }
}

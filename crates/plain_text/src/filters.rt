ghost use Rattle.std.specs.Prelude.{◌≡◌, filter, IfOk};
ghost use Rattle.gcl_model.specs.Extents.{minimal};
ghost use Rattle.plain_text.specs.Containments.{keeps};
ghost use Rattle.gcl_model.specs.Meaning.{extents_where, is_minimal, is_term, is_phrase, is_width, all_cover, any_contains, runs_in_order};

use crate::kinds::{
    AllCover, AnyContains, Covers, Fails, HasWidth, IsInside, IsLeast, IsPhrase, IsTerm,
    RunsInOrder,
};
use crate::pairs::{members_where, pairs_where};
use crate::text::PlainText;
use gcl_model::{Bytes, Containment, Interval, IntervalList};
use std::alloc::{AllocError, Global};

pub(crate) fn term_list(
    alloc: Global,
    text: &PlainText,
    token: &[u8],
) -> Result<IntervalList, AllocError>
    ensures { IfOk result (λ list. list ≡ extents_where text.now (is_term text.now token.now)) }
{
    pairs_where(alloc, text.addresses(), &IsTerm { text, token })
}

pub(crate) fn phrase_list(
    alloc: Global,
    text: &PlainText,
    tokens: &[Bytes],
) -> Result<IntervalList, AllocError>
    ensures { IfOk result (λ list. list ≡ extents_where text.now (is_phrase text.now tokens.now)) }
{
    pairs_where(alloc, text.addresses(), &IsPhrase { text, tokens })
}

pub(crate) fn width_list(
    alloc: Global,
    text: &PlainText,
    width: u64,
) -> Result<IntervalList, AllocError>
    ensures { IfOk result (λ list. list ≡ extents_where text.now (is_width width)) }
{
    pairs_where(alloc, text.addresses(), &HasWidth { width })
}

/// The least pairs in which a member of each list is nested.
pub(crate) fn both_list(
    alloc: Global,
    text: &PlainText,
    lists: &[IntervalList],
) -> Result<IntervalList, AllocError>
    ensures { IfOk result (λ list. list ≡ extents_where text.now (is_minimal text.now (all_cover lists.now))) }
{
    let passing = pairs_where(alloc, text.addresses(), &AllCover { lists })?;
    minimal_list(alloc, passing.as_slice())
}

/// The least members of all lists.
pub(crate) fn one_list(
    alloc: Global,
    text: &PlainText,
    lists: &[IntervalList],
) -> Result<IntervalList, AllocError>
    ensures { IfOk result (λ list. list ≡ extents_where text.now (is_minimal text.now (any_contains lists.now))) }
{
    let passing = pairs_where(alloc, text.addresses(), &AnyContains { lists })?;
    minimal_list(alloc, passing.as_slice())
}

/// The least pairs that run through members of the lists in order.
pub(crate) fn seq_list(
    alloc: Global,
    text: &PlainText,
    lists: &[IntervalList],
) -> Result<IntervalList, AllocError>
    ensures { IfOk result (λ list. list ≡ extents_where text.now (is_minimal text.now (runs_in_order lists.now))) }
{
    let passing = pairs_where(alloc, text.addresses(), &RunsInOrder { lists })?;
    minimal_list(alloc, passing.as_slice())
}

/// The members in which no other member is nested.
fn minimal_list(alloc: Global, members: &[Interval]) -> Result<IntervalList, AllocError>
    ensures { IfOk result (λ list. list ≡ minimal members.now) }
{
    members_where(alloc, members, &IsLeast { members })
}

/// The members of the first list that the containment keeps by the second.
pub(crate) fn kept_list(
    alloc: Global,
    containment: Containment,
    first: &[Interval],
    second: &[Interval],
) -> Result<IntervalList, AllocError>
    ensures { IfOk result (λ list. list ≡ filter (keeps containment second.now) first.now) }
{
    match containment {
        Containment::Containing => members_where(alloc, first, &Covers { members: second }),
        Containment::ContainedIn => members_where(alloc, first, &IsInside { members: second }),
        Containment::NotContaining => {
            let test = Fails {
                test: Covers { members: second },
            };
            members_where(alloc, first, &test)
        }
        Containment::NotContainedIn => {
            let test = Fails {
                test: IsInside { members: second },
            };
            members_where(alloc, first, &test)
        }
    }
}

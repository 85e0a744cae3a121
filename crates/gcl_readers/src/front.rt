ghost use Rattle.std.specs.Prelude.{◌≡◌, ◌<◌, ◌≤◌, List, length, IfSome, IsNone};
ghost use Rattle.gcl_model.specs.Limits.{address_end};
ghost use Rattle.gcl_model.specs.Extents.{Extent, IsRising};
ghost use Rattle.gcl_model.specs.Access.{first_start};
ghost use Rattle.gcl_readers.specs.Standing.{front_of, size_of, with_front};
ghost use Rattle.gcl_readers.specs.Fronts.{IsFrontOf, IsTold, IsUnknown, asked_of, member_of, front_at, start_left};

use gcl_model::{ADDRESS_END, Interval};

/// Where a reader stands in the list of its node.
#[derive(Clone, Copy)]
pub(crate) enum Front {
    /// Nothing was looked for yet: all members are left.
    Before,
    /// The first of the members that are left.
    On(Interval),
    /// The first of the members that are left, and the one after it; None means that there is none after it.
    Between(Interval, Option<Interval>),
    /// No member is left.
    End,
}

/// The place of a reader, and how many places its node and all nodes below have.
#[derive(Clone, Copy)]
pub(crate) struct Place {
    pub(crate) size: usize,
    pub(crate) front: Front,
}

/// The front at the first member at or after `k` that is left, if that member is known.
pub(crate) fn told(front: Front, k: u64) -> Option<Front>
    ensures unknown { IsNone result → IsUnknown front k }
    ensures asked { IfSome result (λ new. asked_of new ≡ asked_of front) }
    ensures told { IfSome result (λ new. (list : List Extent) → IsRising list → first_start list address_end ≡ None →
        IsFrontOf list front → IsTold list front k new) }
{
    match front {
        Front::Before => None,
        Front::On(member) => on_from(member, k),
        Front::Between(member, next) => between_from(member, next, k),
        Front::End => Some(Front::End),
    }
}

fn between_from(member: Interval, next: Option<Interval>, k: u64) -> Option<Front>
    ensures unknown { IsNone result → IsUnknown (Front.Between member next) k }
    ensures asked { IfSome result (λ new. asked_of new ≡ asked_of (Front.Between member next)) }
    ensures told { IfSome result (λ new. (list : List Extent) → IsRising list → first_start list address_end ≡ None →
        IsFrontOf list (Front.Between member next) → IsTold list (Front.Between member next) k new) }
{
    if k <= member.start {
        return Some(Front::Between(member, next));
    }
    match next {
        None => Some(Front::End),
        Some(next) => on_from(next, k),
    }
}

fn on_from(member: Interval, k: u64) -> Option<Front>
    ensures some { IfSome result (λ new. (new ≡ Front.On member) × (k ≤ member.start)) }
    ensures none { IsNone result → member.start < k }
{
    if k <= member.start {
        Some(Front::On(member))
    } else {
        None
    }
}

/// The first of the members that are left, if it is known.
pub(crate) fn member_of(front: &Front) -> Option<Interval>
    ensures { result ≡ member_of front.now }
{
    match front {
        Front::On(member) | Front::Between(member, _) => Some(*member),
        _ => None,
    }
}

/// The front if this was found.
pub(crate) fn front_at(found: &Option<Interval>) -> Front
    ensures { result ≡ front_at found.now }
{
    match found {
        None => Front::End,
        Some(member) => Front::On(*member),
    }
}

/// The front at a member, if the one after it is known, or known not to exist.
pub(crate) fn front_between(member: Interval, next: &Option<Interval>) -> Front
    ensures { result ≡ Front.Between member next.now }
{
    match next {
        None => Front::Between(member, None),
        Some(next) => Front::Between(member, Some(*next)),
    }
}

/// No member that starts before this is left.
pub(crate) fn start_left(front: Front) -> u64
    ensures { result ≡ start_left front }
{
    match front {
        Front::Before => 0,
        Front::On(member) | Front::Between(member, _) => member.start,
        Front::End => ADDRESS_END,
    }
}

/// Where the reader of the first place stands.
pub(crate) fn front_of(places: &[Place]) -> Front
    requires { 0 < length places.now }
    ensures { result ≡ front_of places.now }
{
    places[0].front
}

/// How many places belong to the node of the first one.
pub(crate) fn size_of(places: &[Place]) -> usize
    requires { 0 < length places.now }
    ensures { result ≡ size_of places.now }
{
    places[0].size
}

/// Moves the reader of the first place.
pub(crate) fn put_front(places: &mut [Place], front: Front)
    requires { 0 < length places.old }
    ensures { places.new ≡ with_front places.old front }
{
    places[0].front = front;
}

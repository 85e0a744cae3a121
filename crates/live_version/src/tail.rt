ghost use Rattle.std.specs.Prelude.{◌≡◌, ◌≤◌, ◌<◌, ◌*◌, nat_le, length};
ghost use Rattle.gcl_model.specs.Limits.{address_end};
ghost use Rattle.gcl_model.specs.Slots.{slot_range, slot_width, tail_count};
ghost use Rattle.live_version.specs.Contents.{ranges_of, IsVersion};

use crate::version::Version;
use address_space::Range;

impl Version {
    /// How many slots at the end are merged into one after an add, including that of the added file: 1 if none are. The last two are
    /// merged while four times the width of the last is at least that of the one before it. It takes no memory.
    pub fn tail(&self) -> usize
        requires { 1 ≤ length self.now.slots }
        ensures value { result ≡ tail_count (ranges_of self.now.slots) }
        ensures version { IsVersion self.now }
    {
        let slots = self.slots();
        let count = slots.len();
        let end = slots[count - 1].range();
        let mut first = end.first;
        let mut at = count - 1;
        while at > 0 && is_joined(slots[at - 1].range(), first, end.last) {
            at -= 1;
            first = slots[at].range().first;
        }
        count - at
    }
}

/// Whether a slot and the addresses from `first` to `last` after it are merged into one.
fn is_joined(before: Range, first: u64, last: u64) -> bool
    requires ordered { first ≤ last }
    requires in_range { last < address_end }
    ensures { result ≡ nat_le (slot_width before) (4 * slot_width (slot_range first last)) }
{
    before.last - before.first + 1 <= 4 * (last - first + 1)
}

ghost use Rattle.std.specs.Prelude.{◌≡◌, ◌+◌, ◌≤◌, nat_lt, nat_le, length};
ghost use Rattle.std.specs.List.{prefix_len};
ghost use Rattle.gcl_model.specs.Limits.{most_slots};
ghost use Rattle.gcl_model.specs.Texts.{IsText, next_place, previous_place};
ghost use Rattle.live_version.specs.Contents.{IsVersion, version_text, live_of};
ghost use Rattle.live_version.specs.LookUps.{AreKnown};

use crate::look_up::{ByBytes, LookUp};
use crate::slot::Slot;
use crate::version::Version;
use gcl_model::{Leaves, Ledger, Span, Steps};

impl Leaves for Version {
    ghost use Rattle.std.specs.Prelude.{◌+◌};
    ghost use Rattle.gcl_model.specs.Limits.{most_slots};
    ghost use Rattle.live_version.specs.Contents.{version_text};

    ghost text = { λ v. version_text v };

    ghost most = { λ v. most_slots + v.dels };

    fn next<L: Ledger>(&self, term: &[u8], k: u64, steps: &mut Steps<L>) -> Option<u64> {
        self.next_of(&ByBytes::<L>::new(term), k, steps)
    }

    fn prev<L: Ledger>(&self, term: &[u8], k: u64, steps: &mut Steps<L>) -> Option<u64> {
        self.previous_of(&ByBytes::<L>::new(term), k, steps)
    }

    fn span(&self) -> Span {
        Span {
            first: self.first(),
            next: self.next(),
        }
    }
}

impl Version {
    /// The least address at or after `k` that holds the term. The slots that end before `k` are left out by halving; no clause says so,
    /// since a look-up in each of the slots is within the bound, too.
    pub fn next_of<T: LookUp>(&self, term: &T, k: u64, counter: &mut T::Counter) -> Option<u64>
        requires { AreKnown (T.knows term.now) self.now.slots }
        ensures answer { result ≡ next_place (live_of self.now.slots) (T.term term.now) k }
        ensures sound { IsText (version_text self.now) }
        ensures counted { T.count counter.old ≤ T.count counter.new }
        ensures cost { T.count counter.new ≤ T.count counter.old + (most_slots + self.now.dels) }
    {
        let slots = self.slots();
        let mut number = self.ended_before(k);
        while number < slots.len() {
            if let Some(p) = slots[number].next(term, number, k, counter) {
                return Some(p);
            }
            number += 1;
        }
        None
    }

    /// The greatest address up to `k` that holds the term, looked for backward from the last slot that begins at `k` or before.
    pub fn previous_of<T: LookUp>(&self, term: &T, k: u64, counter: &mut T::Counter) -> Option<u64>
        requires { AreKnown (T.knows term.now) self.now.slots }
        ensures answer { result ≡ previous_place (live_of self.now.slots) (T.term term.now) k }
        ensures sound { IsText (version_text self.now) }
        ensures counted { T.count counter.old ≤ T.count counter.new }
        ensures cost { T.count counter.new ≤ T.count counter.old + (most_slots + self.now.dels) }
    {
        let slots = self.slots();
        let mut left = self.begun_upto(k);
        while left > 0 {
            left -= 1;
            if let Some(p) = slots[left].prev(term, left, k, counter) {
                return Some(p);
            }
        }
        None
    }

    /// How many slots end before `k`: they are the first ones.
    fn ended_before(&self, k: u64) -> usize
        ensures value { result ≡ prefix_len (λ slot. nat_lt slot.range.last k) self.now.slots }
        ensures version { IsVersion self.now }
    {
        self.slots().partition_point(
            |slot: &Slot| -> bool
                ensures { result ≡ nat_lt slot.now.range.last k }
            { slot.range().last < k },
        )
    }

    /// How many slots begin at `k` or before: they are the first ones.
    fn begun_upto(&self, k: u64) -> usize
        ensures value { result ≡ prefix_len (λ slot. nat_le slot.range.first k) self.now.slots }
        ensures within { result ≤ length self.now.slots }
        ensures version { IsVersion self.now }
    {
        self.slots().partition_point(
            |slot: &Slot| -> bool
                ensures { result ≡ nat_le slot.now.range.first k }
            { slot.range().first <= k },
        )
    }
}

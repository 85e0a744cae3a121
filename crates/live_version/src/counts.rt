ghost use Rattle.std.specs.Prelude.{◌≡◌, ◌<◌, filter, length};
ghost use Rattle.gcl_model.specs.Forms.{term};
ghost use Rattle.gcl_model.specs.Meaning.{concordance};
ghost use Rattle.gcl_model.specs.Texts.{places};
ghost use Rattle.index_shard.specs.Tables.{addresses_at};
ghost use Rattle.delete_mask.specs.Masks.{is_dead, is_within};
ghost use Rattle.live_version.specs.Contents.{IsVersion, live_of, live_words, version_text};
ghost use Rattle.live_version.specs.LookUps.{is_alive};
ghost use Rattle.posting_access.specs.Search.{count_below};

use crate::slot::Slot;
use crate::version::Version;
use address_space::Range;
use delete_mask::{Mask, SharedMask};
use gcl_model::{Ledger, Question, Steps, uncounted};
use posting_access::rank;
use posting_code::Postings;

impl Version {
    /// How many surviving words have the token: for each slot the length of the term's list, less what each dead range holds of it.
    /// It is no look-up and takes no memory. If `to be or not to be` is deleted and `be` is not, `be` occurs once.
    pub fn count_of_term(&self, token: &[u8]) -> u64
        ensures places { result ≡ length (places (live_of self.now.slots) token.now) }
        ensures members { result ≡ length (concordance (version_text self.now) (term token.now)) }
        ensures version { IsVersion self.now }
    {
        let slots = self.slots();
        let mut count = 0;
        for slot in slots {
            count += slot.count_of_term(token);
        }
        count
    }
}

impl Slot {
    fn count_of_term(&self, token: &[u8]) -> u64
        ensures { result ≡ length (places (live_words self.now) token.now) }
    {
        match self.shard().place(token) {
            Some(place) => self.count_at(place),
            None => 0,
        }
    }

    /// How many postings of the term at a place are not dead.
    fn count_at(&self, place: usize) -> u64
        requires { place < length self.now.shard.table }
        ensures { result ≡ length (filter (is_alive self.now.mask) (addresses_at self.now.shard.table place)) }
    {
        count_left(&self.shard().postings(place), self.mask()) as u64
    }
}

/// How many postings are not dead, part by part of the dead ranges.
fn count_left(list: &Postings<'_>, mask: &SharedMask) -> usize
    ensures { result ≡ length (filter (is_alive mask.now) list.now) }
{
    let parts = mask.parts();
    let mut count = list.len();
    for part in parts {
        count -= count_dead(list, part.mask());
    }
    count
}

/// How many postings are dead.
fn count_dead(list: &Postings<'_>, mask: &Mask) -> usize
    ensures { result ≡ length (filter (is_dead mask.now) list.now) }
{
    list.len() - count_alive(list, mask)
}

/// How many postings are not dead.
pub(crate) fn count_alive(list: &Postings<'_>, mask: &Mask) -> usize
    ensures { result ≡ length (filter (is_alive mask.now) list.now) }
{
    let ranges = mask.ranges();
    let mut count = list.len();
    for range in ranges {
        count -= count_within(list, range);
    }
    count
}

/// How many postings a range has.
fn count_within(list: &Postings<'_>, range: &Range) -> usize
    ensures { result ≡ length (filter (is_within range.now) list.now) }
{
    rank_of(list, range.last + 1) - rank_of(list, range.first)
}

fn rank_of(list: &Postings<'_>, k: u64) -> usize
    ensures { result ≡ count_below list.now k }
{
    uncounted(&Rank { list, k })
}

/// How many postings are below `k`.
#[derive(Drop)]
struct Rank<'a> {
    list: &'a Postings<'a>,
    k: u64,
}

impl Question for Rank<'_> {
    ghost use Rattle.std.specs.Prelude.{◌≡◌, ◌+◌, ◌*◌, ⊤, length};
    ghost use Rattle.posting_access.specs.Search.{count_below};

    type Answer = usize;

    ghost can_ask = { λ _. ⊤ };

    ghost answers = { λ asked answer. answer ≡ count_below asked.list.now asked.k };

    ghost most = { λ asked _. 2 * length asked.list.now + 1 };

    fn ask<L: Ledger>(&self, probes: &mut Steps<L>) -> usize {
        rank(self.list, self.k, probes)
    }
}

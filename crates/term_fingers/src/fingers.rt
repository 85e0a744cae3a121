ghost use Rattle.std.specs.Prelude.{◌≡◌, ◌+◌, ◌*◌, ◌≤◌, IfSome, IsNone, IsSome, Some};
ghost use Rattle.gcl_model.specs.Limits.{most_slots};
ghost use Rattle.gcl_model.specs.Elements.{IsElementFrom, IsElementUpTo};
ghost use Rattle.gcl_model.specs.Texts.{IsText, places};
ghost use Rattle.index_shard.specs.Searched.{nearest};
ghost use Rattle.live_version.specs.Contents.{live_of, version_text};

use crate::elements::{element_from, element_up_to};
use crate::look_up::ByFinger;
use crate::naming::Naming;
use crate::term::Term;
use crate::undeleted::UndeletedSlots;
use crate::words::add_words;
use arrayvec::ArrayVec;
use gcl_model::{Direction, Expr, Interval, Leaves, Ledger, Pair, Span, Steps};
use live_version::Version;
use std::marker::Model;

/// How many terms have fingers. Each is about a kilobyte.
const MOST_TERMS: usize = 16;

/// A version, with some terms that were found in it once. It is for one query: two that run at the same time have fingers of their own.
#[derive(Drop)]
pub struct Fingers<'a, J: Naming> {
    version: &'a Version,
    undeleted: UndeletedSlots<'a, J>,
    // None in the places that are not used yet, and only there
    terms: ArrayVec<Option<Term<'a, J>>, MOST_TERMS>,
}

impl<'a, J: Naming> Model for Fingers<'a, J> {
    ghost use Rattle.std.specs.Prelude.{◌≡◌};
    ghost use Rattle.live_version.specs.Contents.{VersionContent};

    ghost Value = { VersionContent };

    ghost view = { λ f. f.version.now };

    ghost invariant = { λ f. f.version.now ≡ J.version };
}

impl<'a, J: Naming> Leaves for Fingers<'a, J> {
    ghost text = { λ v. version_text v };

    ghost most = { λ v. most_slots + v.dels };

    fn next<L: Ledger>(&self, term: &[u8], k: u64, steps: &mut Steps<L>) -> Option<u64> {
        let Some(found) = self.find(term) else {
            return Leaves::next(self.version, term, k, steps);
        };
        if let Some(p) = self.counted_at_hand(found, k, Direction::Forward, steps) {
            return Some(p);
        }
        self.version
            .next_of(&ByFinger::<J, L>::new(found), k, steps)
    }

    fn prev<L: Ledger>(&self, term: &[u8], k: u64, steps: &mut Steps<L>) -> Option<u64> {
        let Some(found) = self.find(term) else {
            return Leaves::prev(self.version, term, k, steps);
        };
        if let Some(p) = self.counted_at_hand(found, k, Direction::Backward, steps) {
            return Some(p);
        }
        self.version
            .previous_of(&ByFinger::<J, L>::new(found), k, steps)
    }

    fn earliest_pair(&self, first: &[u8], second: &[u8], k: u64) -> Pair {
        let unknown = Pair {
            at: k,
            found: false,
        };
        // any call of the version ensures `IsVersion`
        let _next = self.version.next();
        let Some(term) = self.find(first) else {
            return unknown;
        };
        let Some(behind) = self.find(second) else {
            return unknown;
        };
        term.earliest_pair(behind, &self.undeleted, k)
    }

    fn element_from<L: Ledger>(
        &self,
        first: &[u8],
        second: &[u8],
        k: u64,
        steps: &mut Steps<L>,
    ) -> Option<Interval>
        ensures answer { IfSome result (IsElementFrom (version_text self.now).words first.now second.now k) }
        ensures counted { steps.old ≤ steps.new }
        ensures cost { steps.new ≤ steps.old + 3 * (most_slots + self.now.dels) }
        ensures none { IsNone result → steps.new ≡ steps.old }
        ensures some { IsSome result → steps.new ≡ steps.old + 3 }
    {
        // any call of the version ensures `IsVersion`
        let _next = self.version.next();
        let term = self.find(first)?;
        let behind = self.find(second)?;
        let element = element_from(term, behind, &self.undeleted, k)?;
        steps.tick();
        steps.tick();
        steps.tick();
        Some(element)
    }

    fn element_up_to<L: Ledger>(
        &self,
        first: &[u8],
        second: &[u8],
        k: u64,
        steps: &mut Steps<L>,
    ) -> Option<Interval>
        ensures answer { IfSome result (IsElementUpTo (version_text self.now).words first.now second.now k) }
        ensures counted { steps.old ≤ steps.new }
        ensures cost { steps.new ≤ steps.old + 3 * (most_slots + self.now.dels) }
        ensures none { IsNone result → steps.new ≡ steps.old }
        ensures some { IsSome result → steps.new ≡ steps.old + 3 }
    {
        // any call of the version ensures `IsVersion`
        let _next = self.version.next();
        let term = self.find(first)?;
        let behind = self.find(second)?;
        let element = element_up_to(term, behind, &self.undeleted, k)?;
        steps.tick();
        steps.tick();
        steps.tick();
        Some(element)
    }

    fn span(&self) -> Span {
        self.version.span()
    }
}

impl<'a, J: Naming> Fingers<'a, J> {
    /// No term was found yet.
    pub fn new(version: &'a Version) -> Self
        requires { version.now ≡ J.version }
        ensures { result ≡ version.now }
    {
        Fingers {
            version,
            undeleted: UndeletedSlots::new(version),
            terms: ArrayVec::new(),
        }
    }

    /// The words of an expression were found.
    pub fn of(version: &'a Version, expr: &'a Expr) -> Self
        requires { version.now ≡ J.version }
        ensures { result ≡ version.now }
    {
        let mut fingers = Fingers::new(version);
        add_words(&mut fingers, expr);
        fingers
    }

    /// Finds a term in each slot, unless it was found before or 16 others were. It changes no answer.
    pub fn add(&mut self, term: &'a [u8])
        ensures { self.new ≡ self.old }
    {
        if self.terms.is_full() || self.find(term).is_some() {
            return;
        }
        self.terms.push(Some(Term::new(self.version, term)));
    }

    /// The place of a term that is nearest to `k` on one side, if its finger finds it without a look at the slots.
    #[inline(always)]
    fn at_hand(&self, term: &Term<'a, J>, k: u64, direction: Direction) -> Option<u64>
        ensures answer { IfSome result (λ p. Some p ≡ nearest direction (places (live_of self.now.slots) term.now.bytes.now) k) }
        ensures sound { IsText (version_text self.now) }
    {
        // any call of the version ensures `IsVersion`
        let _next = self.version.next();
        term.at_hand(&self.undeleted, k, direction)
    }

    /// The same, counted as one look-up, or as none if its finger does not find it.
    #[inline(always)]
    fn counted_at_hand<L: Ledger>(
        &self,
        term: &Term<'a, J>,
        k: u64,
        direction: Direction,
        steps: &mut Steps<L>,
    ) -> Option<u64>
        ensures answer { IfSome result (λ p. Some p ≡ nearest direction (places (live_of self.now.slots) term.now.bytes.now) k) }
        ensures sound { IsText (version_text self.now) }
        ensures some { IsSome result → steps.new ≡ steps.old + 1 }
        ensures none { IsNone result → steps.new ≡ steps.old }
    {
        let place = self.at_hand(term, k, direction);
        if place.is_some() {
            steps.tick();
        }
        place
    }

    /// The term with these bytes, if it was found.
    fn find(&self, bytes: &[u8]) -> Option<&Term<'a, J>>
        ensures { IfSome result (λ term. term.now.bytes.now ≡ bytes.now) }
    {
        for place in self.terms.as_slice() {
            if let Some(term) = place {
                if term.has_bytes(bytes) {
                    return Some(term);
                }
            }
        }
        None
    }
}

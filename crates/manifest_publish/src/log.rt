//! The log of a publisher.
ghost use Rattle.std.specs.Prelude.{◌≡◌, ◌+◌, ◌<◌, ◌++◌, ◌∷◌, [], length, false, IfOk, IfSome, IsTrue};
ghost use mathlib.Core.List.{IsPrefix};
ghost use Rattle.manifest_publish.specs.Histories.{IsOpening, IsLawful};
ghost use Rattle.manifest_publish.specs.Accounts.{Account, account};
ghost use Rattle.manifest_publish.specs.Log.{head_of};

use live_version::Version;
use logbook::{Gain, Offer, Opening, Plain, Play, Rule, Seen, Start, Word};
use std::alloc::{AllocError, Global};
use std::marker::Model;
use std::sync::Arc;

/// The rule of a log.
pub struct Law;

impl Rule<Version, u64> for Law {
    ghost use Rattle.std.specs.Prelude.{[]};
    ghost use base.Fml.{ftrue};
    ghost use Rattle.manifest_publish.specs.Log.{IsKept};

    ghost holds = { λ cells log. IsKept cells log };

    ghost first = { [] };

    ghost hinted = { λ n log. Unit {0} };

    ghost shows = { λ log. [] };

    ghost keeps = { λ names log. ftrue };

    ghost moves = { λ ask before after answer. Unit {0} };
}

/// Nothing is traded.
pub struct Nothing;

impl Gain<Version, u64> for Nothing {
    ghost use base.Fml.{ftrue};

    ghost after = { λ names about answer. ftrue };
}

/// A step that adds a version.
pub struct Add;

impl Play<Version, u64> for Add {
    ghost use Rattle.manifest_publish.specs.Log.{Adds};

    ghost then = { Adds };
}

impl Plain<Version, Version, u64> for Add {
    ghost use Rattle.std.specs.Prelude.{None};

    ghost ask = { λ version. version };

    ghost state = { λ version. None };
}

/// A log begins with its opening version.
pub struct Begin;

impl Opening<Version, Version> for Begin {
    ghost use Rattle.std.specs.Prelude.{[], ◌∷◌};

    ghost log = { λ _ version. version ∷ [] };
}

/// The number of the last version of a log.
pub type Head = Word<Version, u64, Law>;

/// A history that was seen, by its last number.
#[derive(Drop)]
pub struct Mark {
    number: u64,
    seen: Seen<Version, u64, Law>,
}

impl Model for Mark {
    ghost use Rattle.std.specs.Prelude.{◌≡◌, ◌+◌, length};
    ghost use Rattle.manifest_publish.specs.Accounts.{Account, account};
    ghost use Rattle.manifest_publish.specs.Histories.{IsLawful};

    ghost Value = { Account };

    ghost view = { λ m. account m.seen.book m.seen.log };

    ghost invariant = { λ m. (m.number + 1 ≡ length m.seen.log) × IsLawful m.seen.log };
}

/// A log that has the opening version alone.
pub fn begun(alloc: Global, opening: &Version) -> Result<(Arc<Head>, Mark), AllocError>
    requires { IsOpening opening.now }
    ensures { IfOk result (λ made. (made.0.value ≡ head_of made.1.publisher) × (made.1.history ≡ opening.now ∷ [])) }
{
    let (seen, mut pens) = Seen::open_row::<Version, Begin>(opening, Start::alone(), 1);
    let mut pen = pens.take();
    let head: Head = Word::tracked(0, &mut pen);
    match Arc::new(alloc, head) {
        Ok(head) => Ok((head, Mark { number: 0, seen })),
        Err(_) => Err(AllocError),
    }
}

impl Mark {
    /// The number of the last version.
    pub fn number(&self) -> u64
        ensures number { result + 1 ≡ length self.now.history }
        ensures lawful { IsLawful self.now.history }
    {
        self.number
    }

    /// The same mark once more.
    pub fn again(&self) -> Mark
        ensures { result ≡ self.now }
    {
        Mark {
            number: self.number,
            seen: self.seen.again(),
        }
    }

    /// Whether it has all of the other history.
    pub fn covers(&self, other: &Mark) -> bool
        requires { other.now.publisher ≡ self.now.publisher }
        ensures covers { IsTrue result → IsPrefix other.now.history self.now.history }
        ensures begins { result ≡ false → IsPrefix self.now.history other.now.history }
        ensures shorter { result ≡ false → length self.now.history < length other.now.history }
    {
        let mut both = self.seen.again();
        both.learn(&other.seen);
        other.number <= self.number
    }

    /// Adds the version to the log. Returns None if another one was added first.
    pub fn with(&self, head: &Head, version: &Version) -> Option<Mark>
        requires head { head.now ≡ head_of self.now.publisher }
        requires lawful { IsLawful (self.now.history ++ version.now ∷ []) }
        ensures { IfSome result (λ mark. mark ≡ account self.now.publisher (self.now.history ++ version.now ∷ [])) }
    {
        let mut seen = self.seen.again();
        let mut offer: Offer<Version, u64, Law, Nothing> = seen.plain::<Nothing, Version, Add>(
            version,
        );
        let mut pen = seen.no_pen();
        let old = self.number;
        let number = version.number();
        let found = head.compare_exchange::<Add, Nothing>(
            old, number, &mut seen, &mut offer, &mut pen,
        );
        if found == old {
            Some(Mark { number, seen })
        } else {
            None
        }
    }
}

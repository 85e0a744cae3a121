//! What is published, and the rule between a publisher and its readers.
ghost use Rattle.std.specs.Prelude.{◌≡◌, ◌∷◌, ◌++◌, [], IfOk, IfSome};
ghost use Rattle.manifest_publish.specs.Histories.{IsLawful, IsLatest};
ghost use Rattle.manifest_publish.specs.Accounts.{account, EndsWith};
ghost use Rattle.manifest_publish.specs.Log.{head_of};
ghost use Rattle.manifest_publish.specs.Seats.{ShownContent, NextContent, shown_content};

use crate::log::{Head, Mark};
use crate::pass::Pass;
use crate::told::Noted;
use atomic_table::{Join, Split};
use crossbeam_utils::rule::{Outcome, Protocol};
use left_right::Absorb;
use live_version::Version;
use std::alloc::AllocError;
use std::marker::Model;
use std::sync::Arc;

/// A version that is to be added to the history, and published.
#[derive(Drop)]
pub struct Next {
    head: Arc<Head>,
    mark: Mark,
    version: Arc<Version>,
}

impl Model for Next {
    ghost use Rattle.std.specs.Prelude.{◌≡◌, ◌∷◌, ◌++◌, []};
    ghost use Rattle.manifest_publish.specs.Histories.{IsLawful};
    ghost use Rattle.manifest_publish.specs.Log.{head_of};
    ghost use Rattle.manifest_publish.specs.Seats.{NextContent};

    ghost Value = { NextContent };

    ghost view = { λ n. record { publisher = n.mark.publisher; history = n.mark.history; version = n.version.value } };

    ghost invariant = { λ n. (n.head.value ≡ head_of n.mark.publisher) × IsLawful (n.mark.history ++ n.version.value ∷ []) };
}

impl Next {
    /// What is to be shown next.
    pub fn of(head: Arc<Head>, mark: Mark, version: Arc<Version>) -> Next
        requires head { head.value ≡ head_of mark.publisher }
        requires lawful { IsLawful (mark.history ++ version.value ∷ []) }
        ensures { result ≡ record { publisher = mark.publisher; history = mark.history; version = version.value } }
    {
        Next {
            head,
            mark,
            version,
        }
    }

    /// Adds the version to the history. Returns None if the copy is refused or another version was added first.
    fn add(&self) -> Option<Pass>
        ensures { IfSome result (λ pass. pass ≡ account self.now.publisher (self.now.history ++ self.now.version ∷ [])) }
    {
        let version = Arc::try_clone(&self.version).ok()?;
        let mark = self.mark.with(&*self.head, &*self.version)?;
        Some(Pass::of(version, mark))
    }
}

/// The version that readers take, with the history up to it, if it is known.
#[derive(Drop)]
pub struct Shown {
    mark: Mark,
    version: Noted,
    pass: Option<Pass>,
}

impl Model for Shown {
    ghost use Rattle.std.specs.Prelude.{◌≡◌, IfSome};
    ghost use Rattle.manifest_publish.specs.Histories.{IsLatest};
    ghost use Rattle.manifest_publish.specs.Seats.{ShownContent, shown_content};

    ghost Value = { ShownContent };

    ghost view = { λ s. shown_content s.mark.publisher s.version s.pass };

    ghost invariant = { λ s. IfSome s.pass (λ pass. (pass.publisher ≡ s.mark.publisher) × IsLatest pass.history s.version) };
}

impl Shown {
    /// The opening version.
    pub fn begun(opening: &Arc<Version>, mark: &Mark) -> Result<Shown, AllocError>
        requires { EndsWith mark.now.history opening.now.value }
        ensures { IfOk result (λ shown. (shown.publisher ≡ mark.now.publisher) × (shown.version ≡ opening.now.value)) }
    {
        let version = Arc::try_clone(opening)?;
        Ok(Shown {
            mark: mark.again(),
            version: Noted::of(&**opening),
            pass: Some(Pass::of(version, mark.again())),
        })
    }

    /// What is shown after this attempt.
    fn after(next: &Next, pass: Option<Pass>) -> Shown
        requires { IfSome pass (λ pass. (pass.publisher ≡ next.now.publisher) × IsLatest pass.history next.now.version) }
        ensures { (result.publisher ≡ next.now.publisher) × (result.version ≡ next.now.version) }
    {
        Shown {
            mark: next.mark.again(),
            version: Noted::of(&*next.version),
            pass,
        }
    }

    /// The version and the history up to it, if it is shown.
    pub fn pass(&self) -> Option<&Pass>
        ensures { IfSome result (λ pass. (pass.now.publisher ≡ self.now.publisher) × IsLatest pass.now.history self.now.version) }
    {
        self.pass.as_ref()
    }
}

/// The two copies have in common which publisher they are of, and which version they are to show.
impl Absorb<Next> for Shown {
    type State = (Head, Version);

    ghost use Rattle.manifest_publish.specs.Log.{head_of};

    ghost state = { λ s. (head_of s.publisher, s.version) };

    ghost applied = { λ _ next. (head_of next.publisher, next.version) };

    ghost never_fails = { Unit {0} };

    fn absorb_first(&mut self, next: &Next, _other: &Shown) -> Result<(), AllocError> {
        *self = Shown::after(next, next.add());
        Ok(())
    }

    /// The first copy has added it to the history. This one is not shown before the next version was added.
    fn absorb_second(&mut self, next: Next, _other: &Shown) -> Result<(), Next> {
        *self = Shown::after(&next, None);
        Ok(())
    }
}

/// What a seat knows: the head of its publisher's log, or an untracked word for nothing. No value of it is made.
pub type View = Head;

/// The rule.
pub struct Published;

impl Protocol<Shown, View> for Published {
    ghost use Rattle.manifest_publish.specs.Seats.{Keeps, newcomer};

    ghost holds = { Keeps };

    ghost first = { newcomer };
}

/// A look at what is published.
pub struct Looks;

impl Outcome<Shown, View> for Looks {
    ghost use Rattle.std.specs.Prelude.{◌≡◌, true};
    ghost use Rattle.manifest_publish.specs.Log.{head_of};

    ghost then = { λ v x _ w. (v.tracked ≡ true → v ≡ head_of x.publisher) × (w ≡ v) };
}

/// Something more is published, and what is known stays.
pub struct Turns;

impl Outcome<Shown, View> for Turns {
    ghost use Rattle.std.specs.Prelude.{◌≡◌};

    ghost then = { λ v x y w. w ≡ v };
}

/// The publisher sees whose value it is.
pub struct Begins;

impl Outcome<Shown, View> for Begins {
    ghost use Rattle.std.specs.Prelude.{◌≡◌};
    ghost use Rattle.manifest_publish.specs.Log.{head_of};

    ghost then = { λ v x y w. w ≡ head_of y.publisher };
}

/// What a note says: which publisher it is.
pub struct Notes;

impl Split<View> for Notes {
    ghost left = { λ v. v };

    ghost right = { λ v. v };
}

impl Join<View> for Notes {
    ghost use Rattle.manifest_publish.specs.Seats.{newcomer};

    ghost both = { λ v note. note };

    ghost spent = { newcomer };
}

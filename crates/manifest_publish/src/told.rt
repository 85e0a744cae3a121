//! Lists and versions that exist in proofs alone. None has bytes: each is the log of a book that was opened for it, which has no word
//! and never grows.
ghost use Rattle.std.specs.Prelude.{◌≡◌, [], ◌∷◌, ◌++◌};

use crate::log::Mark;
use live_version::Version;
use logbook::{Opening, Rule, Seen, Start};
use std::collections::LinkedList;
use std::marker::Model;

/// A rule that says nothing.
pub struct Loose;

impl<E> Rule<E, ()> for Loose {
    ghost use Rattle.std.specs.Prelude.{[]};
    ghost use base.Fml.{ftrue};

    ghost holds = { λ cells log. Unit {0} };

    ghost first = { [] };

    ghost hinted = { λ n log. Unit {0} };

    ghost shows = { λ log. [] };

    ghost keeps = { λ names log. ftrue };

    ghost moves = { λ ask before after answer. Unit {0} };
}

/// The histories that a reader has learnt.
#[derive(Drop)]
pub struct Told {
    lists: Seen<LinkedList<Version>, (), Loose>,
}

impl Model for Told {
    ghost use Rattle.std.specs.Prelude.{List};
    ghost use Rattle.live_version.specs.Contents.{VersionContent};

    ghost Value = { List (List VersionContent) };

    ghost view = { λ t. t.lists.log };
}

/// One list more.
#[derive(Drop)]
pub struct Longer {
    before: Told,
    last: Mark,
}

impl Opening<Longer, LinkedList<Version>> for Longer {
    ghost use Rattle.std.specs.Prelude.{[], ◌∷◌, ◌++◌};

    ghost log = { λ _ lists. lists.before ++ lists.last.history ∷ [] };
}

/// No list.
pub struct Empty;

impl Opening<(), LinkedList<Version>> for Empty {
    ghost use Rattle.std.specs.Prelude.{[]};

    ghost log = { λ _ _. [] };
}

impl Told {
    /// Nothing was learnt.
    pub fn nothing() -> Told
        ensures { result ≡ [] }
    {
        let (lists, _pens) = Seen::open_row::<(), Empty>(&(), Start::alone(), 0);
        Told { lists }
    }

    /// The lists, and one more.
    pub fn with(&self, last: Mark) -> Told
        ensures { result ≡ self.now ++ last.history ∷ [] }
    {
        let before = Told {
            lists: self.lists.again(),
        };
        let longer = Longer { before, last };
        let (lists, _pens) = Seen::open_row::<Longer, Longer>(&longer, Start::alone(), 0);
        Told { lists }
    }
}

/// A version.
#[derive(Drop)]
pub struct Noted {
    versions: Seen<Version, (), Loose>,
}

impl Model for Noted {
    ghost use Rattle.live_version.specs.Contents.{VersionContent};
    ghost use Rattle.manifest_publish.specs.Seats.{first_of};

    ghost Value = { VersionContent };

    ghost view = { λ n. first_of n.versions.log };
}

/// One version alone.
pub struct Single;

impl Opening<Version, Version> for Single {
    ghost use Rattle.std.specs.Prelude.{[], ◌∷◌};

    ghost log = { λ _ version. version ∷ [] };
}

impl Noted {
    /// One version.
    pub fn of(version: &Version) -> Noted
        ensures { result ≡ version.now }
    {
        let (versions, _pens) = Seen::open_row::<Version, Single>(version, Start::alone(), 0);
        Noted { versions }
    }
}

//! A look at what is published.
ghost use Rattle.std.specs.Prelude.{◌≡◌, IfOk, IfSome};
ghost use Rattle.manifest_publish.specs.Accounts.{Account};
ghost use Rattle.manifest_publish.specs.Log.{head_of};
ghost use Rattle.manifest_publish.specs.Seats.{known};
ghost use Rattle.manifest_publish.specs.Tracked.{HasAll};

use crate::log::Mark;
use crate::pass::Pass;
use crate::shown::{Looks, Published, Shown, View};
use core::mem::replace_with;
use left_right::reader::Reader;
use std::alloc::AllocError;
use std::marker::Model;

/// The `left_right` reader that a reader of versions uses.
pub type Inner = Reader<Shown, View, Published>;

/// The history up to the version that was found, and a pass of it, if its copy was not refused.
#[derive(Drop)]
pub struct Found {
    mark: Mark,
    pass: Result<Pass, AllocError>,
}

impl Model for Found {
    ghost use Rattle.std.specs.Prelude.{◌≡◌, IfOk};
    ghost use Rattle.manifest_publish.specs.Accounts.{Account};

    ghost Value = { Account };

    ghost view = { λ f. f.mark };

    ghost invariant = { λ f. IfOk f.pass (λ pass. pass ≡ f.mark) };
}

impl Found {
    /// The mark, and the pass, or `Err` if out of memory.
    pub fn into_parts(self) -> (Mark, Result<Pass, AllocError>)
        ensures { (result.0 ≡ self) × IfOk result.1 (λ pass. pass ≡ self) }
    {
        let Found { mark, pass } = self;
        (mark, pass)
    }
}

/// What is shown, if it has all that is due. That is checked at run time, since a receipt bypasses `left_right`.
pub fn look(inner: &mut Inner, due: &Mark) -> Option<Found>
    requires { known inner.old.place ≡ head_of due.now.publisher }
    ensures place { known inner.new.place ≡ known inner.old.place }
    ensures found { IfSome result (HasAll due.now) }
{
    replace_with(
        inner,
        due,
        |inner: Inner, due: &Mark| -> (Inner, Option<Found>)
            requires { known inner.place ≡ head_of due.now.publisher }
            ensures place { known result.0.place ≡ known inner.place }
            ensures found { IfSome result.1 (HasAll due.now) }
        { look_by(inner, due) },
    )
}

fn look_by(inner: Inner, due: &Mark) -> (Inner, Option<Found>)
    requires { known inner.place ≡ head_of due.now.publisher }
    ensures place { known result.0.place ≡ known inner.place }
    ensures found { IfSome result.1 (HasAll due.now) }
{
    match inner.enter_as::<Looks>() {
        Ok(reading) => {
            let found = found_at(reading.get(), due);
            (reading.leave(), found)
        }
        Err(inner) => (inner, None),
    }
}

fn found_at(shown: &Shown, due: &Mark) -> Option<Found>
    requires { shown.now.publisher ≡ due.now.publisher }
    ensures { IfSome result (HasAll due.now) }
{
    let pass = shown.pass()?;
    if !pass.mark().covers(due) {
        return None;
    }
    Some(Found {
        mark: pass.mark().again(),
        pass: pass.again(),
    })
}

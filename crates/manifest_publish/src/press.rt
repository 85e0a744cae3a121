//! The writer's end of `left_right`, under the rule that says whose versions it shows.
ghost use Rattle.std.specs.Prelude.{◌≡◌, ◌≤◌, ◌<◌, [], length, vec_capacity, IfOk, IfSome};
ghost use Rattle.std.specs.List.{AllByRecursion};
ghost use Rattle.gcl_model.specs.Limits.{most_readers};
ghost use Rattle.manifest_publish.specs.Accounts.{EndsWith, with_pass};
ghost use Rattle.manifest_publish.specs.Log.{head_of};
ghost use Rattle.manifest_publish.specs.Seats.{known};

use crate::log::Mark;
use crate::reader::Reader;
use crate::shown::{Begins, Next, Notes, Published, Shown, Turns, View};
use left_right::writer::Writer;
use live_version::Version;
use std::alloc::{AllocError, Global};
use std::marker::Model;
use std::sync::{Arc, Wait};

type Feed = Writer<Shown, Next, View, Published>;

/// Shows versions to readers. It cannot be dropped: `end` ends it.
pub struct Press {
    feed: Feed,
}

impl Model for Press {
    ghost use Rattle.std.specs.Prelude.{◌≡◌};
    ghost use Rattle.logbook.specs.Pages.{Book};
    ghost use Rattle.manifest_publish.specs.Log.{head_of};
    ghost use Rattle.manifest_publish.specs.Seats.{known};

    ghost Value = { Book };

    ghost view = { λ p. p.feed.desk.shown.value.publisher };

    ghost invariant = { λ p. known p.feed.desk.place ≡ head_of p.feed.desk.shown.value.publisher };
}

impl Press {
    /// Shows the opening version. It is published once, so that the writer knows whose version it shows, and can inform readers.
    pub fn new<R: Wait>(
        rt: &R,
        alloc: Global,
        opening: &Arc<Version>,
        mark: &Mark,
        readers: usize,
    ) -> Result<Press, AllocError>
        requires history { EndsWith mark.now.history opening.now.value }
        requires readers { readers ≤ most_readers }
        ensures { IfOk result (λ press. press ≡ mark.now.publisher) }
    {
        let first = Shown::begun(opening, mark)?;
        let second = Shown::begun(opening, mark)?;
        let feed: Feed = Writer::new(alloc, first, second, readers.max(1))?;
        let (feed, _always) = feed.publish_as::<Begins, R>(rt);
        Ok(Press { feed })
    }

    /// `readers` readers that have entered the opening version, or fewer if there was no place for one.
    pub fn readers(
        &mut self,
        mut made: Vec<Reader>,
        opening: &Arc<Version>,
        mark: &Mark,
        readers: usize,
    ) -> Vec<Reader>
        requires room { (made.items ≡ []) × (vec_capacity made ≡ readers) }
        requires publisher { mark.now.publisher ≡ self.old }
        requires history { EndsWith mark.now.history opening.now.value }
        ensures kept { self.new ≡ self.old }
        ensures readers { AllByRecursion (λ reader. reader ≡ with_pass mark.now.publisher mark.now.history) result.items }
        ensures few { length result.items ≤ readers }
    {
        for _ in 0..readers {
            if let Some(reader) = self.reader(opening, mark) {
                made.push_reserved(reader);
            }
        }
        made
    }

    fn reader(&mut self, opening: &Arc<Version>, mark: &Mark) -> Option<Reader>
        requires publisher { mark.now.publisher ≡ self.old }
        requires history { EndsWith mark.now.history opening.now.value }
        ensures kept { self.new ≡ self.old }
        ensures reader { IfSome result (λ reader. reader ≡ with_pass mark.now.publisher mark.now.history) }
    {
        let opening = Arc::try_clone(opening).ok()?;
        let mut inner = self.feed.factory().reader().ok()?;
        inner.learn::<Notes>(self.feed.tell::<Notes>());
        Some(Reader::begun(inner, opening, mark))
    }

    /// Adds the version to the history and shows it. Returns the history up to it if that was done.
    pub fn publish<R: Wait>(self, rt: &R, next: Next) -> (Press, Option<Mark>)
        requires { next.publisher ≡ self }
        ensures kept { result.0 ≡ self }
        ensures shown { IfSome result.1 (λ mark. (mark.publisher ≡ self) × EndsWith mark.history next.version) }
    {
        let Press { mut feed } = self;
        if feed.append(next).is_err() {
            return (Press { feed }, None);
        }
        let (feed, _always) = feed.publish_as::<Turns, R>(rt);
        let mark = shown_mark(feed.published());
        (Press { feed }, mark)
    }

    /// Ends it. It may wait for readers that are inside an entering.
    pub fn end<R: Wait>(self, rt: &R) {
        let Press { feed } = self;
        feed.take(rt);
    }
}

fn shown_mark(shown: &Shown) -> Option<Mark>
    ensures { IfSome result (λ mark. (mark.publisher ≡ shown.now.publisher) × EndsWith mark.history shown.now.version) }
{
    let pass = shown.pass()?;
    Some(pass.mark().again())
}

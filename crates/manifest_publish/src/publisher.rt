ghost use Rattle.std.specs.Prelude.{◌≡◌, ◌≤◌, [], ◌∷◌, ◌++◌, length, IfOk, IfSome, OnOk, OnErr};
ghost use Rattle.std.specs.List.{AllByRecursion};
ghost use Rattle.gcl_model.specs.Limits.{most_readers};
ghost use Rattle.manifest_publish.specs.Histories.{IsOpening, IsLawful};
ghost use Rattle.manifest_publish.specs.Accounts.{Account, account, EndsWith, VouchesFor, with_pass};
ghost use Rattle.manifest_publish.specs.Log.{head_of};

use crate::log::{Head, Mark, begun};
use crate::pass::{Pass, Receipt};
use crate::press::Press;
use crate::reader::Reader;
use crate::shown::Next;
use core::mem::replace_with;
use live_version::Version;
use std::alloc::{AllocError, Global};
use std::marker::Model;
use std::sync::{Arc, Wait};

/// Publishes versions. It cannot be dropped: `end` ends it.
pub struct Publisher {
    press: Press,
    head: Arc<Head>,
    last: Pass,
}

impl Model for Publisher {
    ghost use Rattle.std.specs.Prelude.{◌≡◌};
    ghost use Rattle.manifest_publish.specs.Accounts.{Account};
    ghost use Rattle.manifest_publish.specs.Log.{head_of};

    ghost Value = { Account };

    ghost view = { λ p. p.last };

    ghost invariant = { λ p. (p.head.value ≡ head_of p.last.publisher) × (p.press ≡ p.last.publisher) };
}

impl Publisher {
    /// A publisher whose history is the opening version alone, and readers that have entered it. It waits for nobody, since there
    /// is no reader yet.
    pub fn new<R: Wait>(
        rt: &R,
        alloc: Global,
        opening: Arc<Version>,
        readers: usize,
    ) -> Result<(Publisher, Vec<Reader>), AllocError>
        requires opening { IsOpening opening.value }
        requires readers { readers ≤ most_readers }
        ensures history { IfOk result (λ made. made.0.history ≡ opening.value ∷ []) }
        ensures readers { IfOk result (λ made. AllByRecursion (λ reader. reader ≡ with_pass made.0.publisher (opening.value ∷ []))
            made.1.items) }
        ensures few { IfOk result (λ made. length made.1.items ≤ readers) }
    {
        let made = Vec::with_capacity(alloc, readers)?;
        let (head, mark) = begun(alloc, &*opening)?;
        let version = Arc::try_clone(&opening)?;
        let last = Pass::of(version, mark.again());
        let mut press = Press::new(rt, alloc, &opening, &mark, readers)?;
        let made = press.readers(made, &opening, &mark, readers);
        Ok((Publisher { press, head, last }, made))
    }

    /// Publishes a version that is a next one of the last. It may wait for readers that are inside an entering.
    /// On `Err` nothing was published, and the version never becomes a member of the history.
    pub fn publish<R: Wait>(&mut self, rt: &R, version: Arc<Version>) -> Result<Receipt, AllocError>
        requires { IsLawful (self.old.history ++ version.value ∷ []) }
        ensures history { OnOk result (self.new ≡ account self.old.publisher (self.old.history ++ version.value ∷ [])) }
        ensures receipt { IfOk result (λ receipt. VouchesFor receipt self.new) }
        ensures err { OnErr result (self.new ≡ self.old) }
    {
        let copy = Arc::try_clone(&version)?;
        let head = Arc::try_clone(&self.head)?;
        let next = Next::of(head, self.last.mark().again(), version);
        let shown = replace_with(
            &mut self.press,
            next,
            |press: Press, next: Next| -> (Press, Option<Mark>)
                requires { next.publisher ≡ press }
                ensures kept { result.0 ≡ press }
                ensures shown { IfSome result.1 (λ mark. (mark.publisher ≡ press) × EndsWith mark.history next.version) }
            { press.publish(rt, next) },
        );
        let Some(mark) = shown else {
            return Err(AllocError);
        };
        let last = followed(&self.last, copy, mark);
        let receipt = last.receipt();
        self.last = last;
        Ok(receipt)
    }

    /// The receipt of the last version. It takes no memory.
    pub fn receipt(&self) -> Receipt
        ensures { VouchesFor result self.now }
    {
        self.last.receipt()
    }

    /// The last version.
    pub fn current(&self) -> &Arc<Version>
        ensures { EndsWith self.now.history result.now.value }
    {
        self.last.share()
    }

    /// A pass of the last version.
    pub fn pass(&self) -> Result<Pass, AllocError>
        ensures { IfOk result (λ pass. pass ≡ self.now) }
    {
        self.last.again()
    }

    /// Ends it. It may wait for readers that are inside an entering.
    pub fn end<R: Wait>(self, rt: &R) {
        let Publisher {
            press,
            head: _head,
            last: _last,
        } = self;
        press.end(rt);
    }
}

/// The pass of a version that was added to the history of the last one.
fn followed(last: &Pass, version: Arc<Version>, mark: Mark) -> Pass
    requires publisher { mark.publisher ≡ last.now.publisher }
    requires history { EndsWith mark.history version.value }
    requires lawful { IsLawful (last.now.history ++ version.value ∷ []) }
    ensures { result ≡ account last.now.publisher (last.now.history ++ version.value ∷ []) }
{
    // the marks are compared so that the histories that they stand for are, too
    let _covers = mark.covers(last.mark());
    Pass::of(version, mark)
}

ghost use Rattle.std.specs.Prelude.{◌≡◌, ℕ, [], ◌∷◌, ◌++◌, IfOk, IsErrOf};
ghost use mathlib.Core.List.{IsPrefix};
ghost use Rattle.live_version.specs.Contents.{VersionContent};
ghost use Rattle.manifest_publish.specs.Histories.{IsLawful, IsLatest};
ghost use Rattle.manifest_publish.specs.Accounts.{account, EndsWith, ReaderContent, with_pass, MayEnter, IsOwed, IsRefused};
ghost use Rattle.manifest_publish.specs.Log.{head_of};
ghost use Rattle.manifest_publish.specs.Seats.{known};
ghost use Rattle.manifest_publish.specs.declared.reader.EnterFault.TheVariants.{NoEntry, NoMemory};

use crate::found::{Found, Inner, look};
use crate::log::Mark;
use crate::pass::{Pass, Receipt};
use crate::told::Told;
use live_version::Version;
use std::alloc::AllocError;
use std::marker::Model;
use std::sync::Arc;

/// Why an entering gave no pass.
#[derive(Clone, Copy, Debug, PartialEq, Eq)]
pub enum EnterFault {
    /// There was no entry, and something is owed to the reader. It carries the number of the version of its last pass.
    NoEntry(u64),
    /// The copy of an `Arc` was refused.
    NoMemory,
}

impl From<AllocError> for EnterFault {
    ghost from_gives = { λ _ fault. fault ≡ NoMemory };

    fn from(_error: AllocError) -> EnterFault {
        EnterFault::NoMemory
    }
}

/// Enters the versions of one publisher, and waits for nobody.
#[derive(Drop)]
pub struct Reader {
    inner: Inner,
    kept: Pass,
    // The history up to the last version that it reached.
    seen: Mark,
    // The longest of that and of those that it learnt since.
    due: Mark,
    told: Told,
    // Whether it learnt any.
    learnt: bool,
}

impl Model for Reader {
    ghost use Rattle.std.specs.Prelude.{◌≡◌};
    ghost use Rattle.manifest_publish.specs.Accounts.{ReaderContent, reader_content};
    ghost use Rattle.manifest_publish.specs.Log.{head_of};
    ghost use Rattle.manifest_publish.specs.Seats.{known};
    ghost use Rattle.manifest_publish.specs.Tracked.{IsTracked};

    ghost Value = { ReaderContent };

    ghost view = { λ r. reader_content r.seen.publisher r.seen.history r.told r.kept.history };

    ghost invariant = { λ r. (known r.inner.place ≡ head_of r.seen.publisher) × IsTracked r.seen r.due r.kept r.told r.learnt };
}

impl Reader {
    /// A reader that has entered the opening version.
    pub(crate) fn begun(inner: Inner, opening: Arc<Version>, mark: &Mark) -> Reader
        requires publisher { known inner.place ≡ head_of mark.now.publisher }
        requires history { EndsWith mark.now.history opening.value }
        ensures { result ≡ with_pass mark.now.publisher mark.now.history }
    {
        Reader {
            inner,
            kept: Pass::of(opening, mark.again()),
            seen: mark.again(),
            due: mark.again(),
            told: Told::nothing(),
            learnt: false,
        }
    }

    /// Enters the version that was published last. It waits for nobody.
    pub fn enter(&mut self) -> Result<Pass, EnterFault>
        ensures publisher { self.new.publisher ≡ self.old.publisher }
        ensures pass { IfOk result (MayEnter self.old) }
        ensures kept { IfOk result (λ pass. self.new ≡ with_pass pass.publisher pass.history) }
        ensures no_entry { (n : ℕ) → IsErrOf result (NoEntry n) → (self.new ≡ self.old) × IsOwed self.old ×
            ((v : VersionContent) × IsLatest self.old.kept v × (n ≡ v.number)) }
        ensures no_memory { IsErrOf result NoMemory → IsRefused self.old self.new }
    {
        match look(&mut self.inner, &self.due) {
            Some(found) => self.reach(found),
            None => self.stay(),
        }
    }

    /// A version was reached: its history is seen, whether or not its pass can be kept.
    fn reach(&mut self, found: Found) -> Result<Pass, EnterFault>
        requires { MayEnter self.old found }
        ensures publisher { self.new.publisher ≡ self.old.publisher }
        ensures pass { IfOk result (MayEnter self.old) }
        ensures kept { IfOk result (λ pass. self.new ≡ with_pass pass.publisher pass.history) }
        ensures no_entry { (n : ℕ) → IsErrOf result (NoEntry n) → ⊥ }
        ensures no_memory { IsErrOf result NoMemory → IsRefused self.old self.new }
    {
        let (mark, pass) = found.into_parts();
        self.due = mark.again();
        self.seen = mark;
        self.told = Told::nothing();
        self.learnt = false;
        let pass = pass?;
        let again = pass.again()?;
        self.kept = again;
        Ok(pass)
    }

    /// The last pass again, if nothing is owed.
    fn stay(&self) -> Result<Pass, EnterFault>
        ensures pass { IfOk result (λ pass. (pass ≡ account self.now.publisher self.now.kept) × IsLawful self.now.kept ×
            (self.now.told ≡ []) × (self.now.seen ≡ self.now.kept)) }
        ensures no_entry { (n : ℕ) → IsErrOf result (NoEntry n) → IsOwed self.now ×
            ((v : VersionContent) × IsLatest self.now.kept v × (n ≡ v.number)) }
    {
        let number = self.kept.version().number();
        if self.learnt || self.seen.number() != number {
            return Err(EnterFault::NoEntry(number));
        }
        let pass = self.kept.again()?;
        Ok(pass)
    }

    /// Takes in a receipt: the next pass has its version or a later one. It takes no memory.
    pub fn learn(&mut self, receipt: Receipt)
        requires { receipt.publisher ≡ self.old.publisher }
        ensures { self.new ≡ record self.old { told = self.old.told ++ receipt.history ∷ [] } }
    {
        let mark = receipt.into_mark();
        self.due = longer(&self.due, &mark);
        self.told = self.told.with(mark);
        self.learnt = true;
    }
}

/// The longer of two histories, which begins with the other one.
fn longer(one: &Mark, other: &Mark) -> Mark
    requires { other.now.publisher ≡ one.now.publisher }
    ensures publisher { result.publisher ≡ one.now.publisher }
    ensures one { IsPrefix one.now.history result.history }
    ensures other { IsPrefix other.now.history result.history }
{
    if one.covers(other) {
        one.again()
    } else {
        other.again()
    }
}

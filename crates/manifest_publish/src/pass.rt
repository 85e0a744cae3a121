//! What a publisher and a reader hand out.
ghost use Rattle.std.specs.Prelude.{◌≡◌, IfOk};
ghost use Rattle.manifest_publish.specs.Accounts.{Account, EndsWith, ReceiptContent, VouchesFor};

use crate::log::Mark;
use live_version::Version;
use std::alloc::AllocError;
use std::marker::Model;
use std::sync::Arc;

/// A version that was published, with the history up to it. It stays what it is, whatever is published later.
#[derive(Drop)]
pub struct Pass {
    version: Arc<Version>,
    mark: Mark,
}

impl Model for Pass {
    ghost use Rattle.manifest_publish.specs.Accounts.{Account, EndsWith};

    ghost Value = { Account };

    ghost view = { λ p. p.mark };

    ghost invariant = { λ p. EndsWith p.mark.history p.version.value };
}

impl Pass {
    pub(crate) fn of(version: Arc<Version>, mark: Mark) -> Pass
        requires { EndsWith mark.history version.value }
        ensures { result ≡ mark }
    {
        Pass { version, mark }
    }

    /// The last version of its history.
    pub fn version(&self) -> &Version
        ensures { EndsWith self.now.history result.now }
    {
        &*self.version
    }

    pub(crate) fn share(&self) -> &Arc<Version>
        ensures { EndsWith self.now.history result.now.value }
    {
        &self.version
    }

    pub(crate) fn mark(&self) -> &Mark
        ensures { result.now ≡ self.now }
    {
        &self.mark
    }

    /// Another pass of the same version. `Err` means out of memory.
    pub fn again(&self) -> Result<Pass, AllocError>
        ensures { IfOk result (λ pass. pass ≡ self.now) }
    {
        let version = Arc::try_clone(&self.version)?;
        Ok(Pass::of(version, self.mark.again()))
    }

    /// The receipt of its version. It takes no memory.
    pub fn receipt(&self) -> Receipt
        ensures { VouchesFor result self.now }
    {
        Receipt {
            number: self.version.number(),
            edition: self.version.edition(),
            mark: self.mark.again(),
        }
    }
}

/// Evidence that a version was published. A reader that learns it enters that version or a later one.
#[derive(Drop)]
pub struct Receipt {
    pub number: u64,
    pub edition: u64,
    mark: Mark,
}

impl Model for Receipt {
    ghost use Rattle.manifest_publish.specs.Accounts.{ReceiptContent, receipt_content};

    ghost Value = { ReceiptContent };

    ghost view = { λ r. receipt_content r.mark.publisher r.mark.history r.number r.edition };
}

impl Receipt {
    pub(crate) fn into_mark(self) -> Mark
        ensures { (result.publisher ≡ self.publisher) × (result.history ≡ self.history) }
    {
        let Receipt {
            number: _number,
            edition: _edition,
            mark,
        } = self;
        mark
    }
}

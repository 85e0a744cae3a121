ghost use Rattle.std.specs.Prelude.{◌≡◌, ◌<◌};
ghost use Rattle.std.specs.List.{AllByRecursion};

use manifest_publish::{EnterFault, Pass, Reader};
use shared_edit::{Naming, SharedEngine, plan_merge};
use std::alloc::Global;
use std::marker::{Model, PhantomData};
use std::sync::Wait;
use std::sync::ledger::Ledger;

// How often the lane enters and settles.
const ROUNDS: u64 = 8;

/// The reader that plans merges, if there is one. It is of the publisher of `J`.
#[derive(Drop)]
pub struct Lane<J: Naming> {
    reader: Option<Reader>,
    of: PhantomData<J>,
}

impl<J: Naming> Model for Lane<J> {
    ghost use Rattle.std.specs.Prelude.{Option};
    ghost use Rattle.manifest_publish.specs.Accounts.{ReaderContent};
    ghost use Rattle.share_run.specs.Lanes.{IsOf};

    ghost Value = { Option ReaderContent };

    ghost view = { λ l. l.reader };

    ghost invariant = { λ l. IsOf J.publisher l.reader };
}

/// Plans a merge of all slots of the version that was entered, outside of the lock, and settles it.
fn settle_all<A: Ledger, G: Ledger, S: Ledger, J: Naming, R: Wait>(
    rt: &R,
    alloc: Global,
    shared: &SharedEngine<A, G, S, J>,
    reader: &mut Reader,
    pass: &Pass,
)
    requires reader { reader.old.publisher ≡ J.publisher }
    requires seen { reader.old.seen ≡ pass.now.history }
    ensures { reader.new.publisher ≡ J.publisher }
{
    let count = pass.version().slot_count();
    if count < 2 {
        return;
    }
    if let Ok(plan) = plan_merge(alloc, pass, count) {
        // a plan that is stale is dropped: the next round makes another one
        let _settled = shared.settle(rt, reader, plan);
    }
}

/// Eight rounds of entering and settling. A round ends there if entering fails.
fn settle_rounds<A: Ledger, G: Ledger, S: Ledger, J: Naming, R: Wait>(
    rt: &R,
    alloc: Global,
    shared: &SharedEngine<A, G, S, J>,
    reader: &mut Reader,
)
    requires { reader.old.publisher ≡ J.publisher }
    ensures { reader.new.publisher ≡ J.publisher }
{
    for _i in 0..ROUNDS {
        match reader.enter() {
            Ok(pass) => settle_all(rt, alloc, shared, reader, &pass),
            Err(EnterFault::NoEntry(_number)) => {}
            Err(EnterFault::NoMemory) => {}
        }
    }
}

impl<J: Naming> Lane<J> {
    /// A lane with the last of these readers, if there are any.
    pub fn of(mut readers: Vec<Reader>) -> Lane<J>
        requires { AllByRecursion (λ reader. reader.publisher ≡ J.publisher) readers.items }
    {
        Lane {
            reader: readers.pop(),
            of: PhantomData,
        }
    }

    /// Runs its rounds, if it has a reader.
    pub fn settle<A: Ledger, G: Ledger, S: Ledger, R: Wait>(
        &mut self,
        rt: &R,
        alloc: Global,
        shared: &SharedEngine<A, G, S, J>,
    ) {
        if let Some(reader) = &mut self.reader {
            settle_rounds(rt, alloc, shared, reader);
        }
    }
}

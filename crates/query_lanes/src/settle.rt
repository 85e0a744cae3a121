ghost use Rattle.std.specs.Prelude.{◌≡◌, length, IfSome};
ghost use Rattle.manifest_publish.specs.Accounts.{GoesOn};
ghost use Rattle.query_lanes.specs.Readers.{EachIsOf, IsLater};
ghost use Rattle.query_lanes.specs.inner.Lanes.{IsTold, AreTold, IsSettled, AreSettled};

use crate::lane::Work;
use collection::Engine;
use manifest_publish::{EnterFault, Pass, Reader};

/// Enters anew. Whatever comes of it, the reader never knows less than before.
pub fn enter(reader: &mut Reader) -> Option<Pass>
    ensures later { IsLater reader.old reader.new }
    ensures from { IfSome result (λ pass. GoesOn reader.old pass.history) }
    ensures seen { IfSome result (λ pass. reader.new.seen ≡ pass.history) }
{
    match reader.enter() {
        Ok(pass) => Some(pass),
        Err(EnterFault::NoEntry(_)) => None,
        Err(EnterFault::NoMemory) => None,
    }
}

/// Gives a reader the receipt of all that the engine published.
fn tell(engine: &Engine, reader: &mut Reader)
    requires { reader.old.publisher ≡ engine.now.publisher }
    ensures { IsTold engine.now.history reader.old reader.new }
{
    reader.learn(engine.receipt());
}

/// Gives each reader one.
pub fn tell_all(engine: &Engine, readers: &mut [Reader])
    requires { EachIsOf engine.now.publisher readers.old }
    ensures of { EachIsOf engine.now.publisher readers.new }
    ensures told { AreTold engine.now.history readers.old readers.new }
{
    for i in 0..readers.len() {
        tell(engine, &mut readers[i]);
    }
}

/// Gives a reader the receipt of all that the engine published, lets it enter once more, and notes whether it did.
fn settle(engine: &Engine, work: &mut Work, reader: &mut Reader)
    requires { reader.old.publisher ≡ engine.now.publisher }
    ensures { IsSettled engine.now.history reader.old reader.new work.old work.new }
{
    tell(engine, reader);
    work.is_settled = enter(reader).is_some();
}

/// Does so with the reader of each lane.
pub fn settle_all(engine: &Engine, works: &mut [Work], readers: &mut [Reader])
    requires of { EachIsOf engine.now.publisher readers.old }
    requires same { length works.old ≡ length readers.old }
    ensures of { EachIsOf engine.now.publisher readers.new }
    ensures settled { AreSettled engine.now.history readers.old readers.new works.old works.new }
{
    for i in 0..readers.len() {
        settle(engine, &mut works[i], &mut readers[i]);
    }
}

ghost use Rattle.std.specs.Prelude.{◌≡◌, ◌↔◌, ◌<◌, ◌≤◌, [], ◌∷◌, ℕ, length, IfOk, IsErrOf, OnOk, OnErr};
ghost use Rattle.std.specs.List.{AllByRecursion};
ghost use Rattle.gcl_model.specs.Limits.{address_end, most_readers};
ghost use Rattle.live_version.specs.Changes.{empty_version};
ghost use Rattle.manifest_publish.specs.Accounts.{with_pass, VouchesFor};
ghost use Rattle.collection.specs.Engines.{IsEngine, IsPublication, engine_content, published, with_version};
ghost use Rattle.collection.specs.declared.faults.OpenFault.TheVariants.{BadFirst};

use crate::faults::OpenFault;
use address_space::FileId;
use gcl_model::ADDRESS_END;
use live_version::Version;
use manifest_publish::{Pass, Publisher, Reader, Receipt};
use shard_build::Names;
use std::alloc::{AllocError, Global};
use std::marker::Model;
use std::mem;
use std::sync::{Arc, Wait};

/// A collection of files under adds, deletions and merges, each of which is published. It cannot be dropped: `end` ends it.
pub struct Engine {
    alloc: Global,
    publisher: Publisher,
    // lent to each add: no answer depends on them, nor on the number that their hashes begin with
    names: Names,
    seed: u64,
}

impl Model for Engine {
    ghost use Rattle.collection.specs.Engines.{EngineContent, IsEngine, engine_content};

    ghost Value = { EngineContent };

    ghost view = { λ e. engine_content e.publisher.publisher e.publisher.history };

    ghost invariant = { λ e. IsEngine (engine_content e.publisher.publisher e.publisher.history) };
}

/// An engine that was just opened, its readers, and how many lines of a script were executed.
pub struct Opened {
    pub engine: Engine,
    pub readers: Vec<Reader>,
    pub lines: u64,
}

/// A file that was added: its id, its first and last address, and the receipt of the version that has it.
#[derive(Drop)]
pub struct Added {
    pub id: FileId,
    pub first: u64,
    pub last: u64,
    pub receipt: Receipt,
}

fn shared(alloc: Global, version: Version) -> Result<Arc<Version>, AllocError>
    ensures { IfOk result (λ shared. shared.value ≡ version) }
{
    match Arc::new(alloc, version) {
        Ok(shared) => Ok(shared),
        Err(_) => Err(AllocError),
    }
}

impl Engine {
    /// An engine without files whose addresses begin at `first`, and readers that have entered its opening version, at most as
    /// many as are asked for.
    pub fn open<R: Wait>(
        rt: &R,
        alloc: Global,
        first: u64,
        readers: usize,
    ) -> Result<Opened, OpenFault>
        requires { readers ≤ most_readers }
        ensures history { IfOk result (λ opened. opened.engine ≡ engine_content opened.engine.publisher (empty_version first ∷ [])) }
        ensures readers { IfOk result (λ opened. AllByRecursion (λ reader.
            reader ≡ with_pass opened.engine.publisher (empty_version first ∷ [])) opened.readers.items) }
        ensures few { IfOk result (λ opened. length opened.readers.items ≤ readers) }
        ensures lines { IfOk result (λ opened. opened.lines ≡ 0) }
        ensures bad_first { (n : ℕ) → IsErrOf result (BadFirst n) ↔ ((n ≡ first) × (address_end < first)) }
    {
        if ADDRESS_END < first {
            return Err(OpenFault::BadFirst(first));
        }
        let opening = shared(alloc, Version::empty(alloc, first))?;
        let (publisher, readers) = Publisher::new(rt, alloc, opening, readers)?;
        Ok(Opened {
            engine: Engine {
                alloc,
                publisher,
                names: Names::new(alloc),
                seed: 0,
            },
            readers,
            lines: 0,
        })
    }

    /// The version that was published last. It takes no memory.
    pub fn version(&self) -> &Version
        ensures value { result.now ≡ self.now.version }
        ensures engine { IsEngine self.now }
    {
        self.publisher.current()
    }

    /// The receipt of the version that was published last. It takes no memory.
    pub fn receipt(&self) -> Receipt
        ensures receipt { VouchesFor result (published self.now) }
        ensures engine { IsEngine self.now }
    {
        self.publisher.receipt()
    }

    /// A pass of the version that was published last.
    pub fn pass(&self) -> Result<Pass, AllocError>
        ensures pass { IfOk result (λ pass. pass ≡ published self.now) }
        ensures engine { IsEngine self.now }
    {
        self.publisher.pass()
    }

    /// The hashes of tokens begin with this number from now on. If each run has its own, such as from the system's random bytes, no
    /// file can be made that is slow to add. No answer depends on it.
    pub fn seed(&mut self, seed: u64)
        ensures { self.new ≡ self.old }
    {
        self.seed = seed;
        self.names = Names::seeded(self.alloc, seed);
    }

    /// Ends it. It may wait for readers that are inside an entering.
    pub fn end<R: Wait>(self, rt: &R) {
        let Engine {
            alloc: _alloc,
            publisher,
            names: _names,
            seed: _seed,
        } = self;
        publisher.end(rt);
    }

    pub(crate) fn allocator(&self) -> Global {
        self.alloc
    }

    /// Hands out the names that are kept from add to add. None are left.
    pub(crate) fn lend_names(&mut self) -> Names
        ensures { self.new ≡ self.old }
    {
        mem::replace(&mut self.names, Names::seeded(self.alloc, self.seed))
    }

    /// Takes the names back.
    pub(crate) fn keep_names(&mut self, names: Names)
        ensures { self.new ≡ self.old }
    {
        self.names = names;
    }

    /// Publishes one more version.
    pub(crate) fn publish<R: Wait>(
        &mut self,
        rt: &R,
        version: Version,
    ) -> Result<Receipt, AllocError>
        requires { IsEngine (with_version self.old version) }
        ensures version { OnOk result (self.new.version ≡ version) }
        ensures published { IfOk result (IsPublication self.old self.new) }
        ensures err { OnErr result (self.new ≡ self.old) }
    {
        let version = shared(self.alloc, version)?;
        let receipt = self.publisher.publish(rt, version)?;
        Ok(receipt)
    }
}

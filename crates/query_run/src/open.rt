ghost use Rattle.std.specs.Prelude.{◌≡◌, ◌↔◌, ◌<◌, ◌≤◌, [], ◌∷◌, ℕ, length, IfOk, IsErrOf};
ghost use Rattle.gcl_model.specs.Limits.{address_end, most_readers};
ghost use Rattle.live_version.specs.Changes.{empty_version};
ghost use Rattle.collection.specs.Engines.{engine_content};
ghost use Rattle.query_lanes.specs.Readers.{AreOf};
ghost use Rattle.collection.specs.declared.faults.OpenFault.TheVariants.{BadFirst};

use collection::{Engine, OpenFault, Opened};
use std::alloc::Global;
use std::hash::{BuildHasher, Hasher, RandomState};
use std::random::RandomSource;
use std::sync::Wait;

/// A number of the run's own, or 0 if the system has no random bytes.
fn own_number<R: RandomSource>(rt: &R) -> u64 {
    match RandomState::new(rt) {
        Ok(state) => state.build_hasher().finish(),
        Err(_) => 0,
    }
}

/// Opens an engine whose hashes begin with a number of the run's own, so that no file can be made beforehand that is slow to add.
pub fn open<R: Wait + RandomSource>(
    rt: &R,
    alloc: Global,
    first: u64,
    readers: usize,
) -> Result<Opened, OpenFault>
    requires { readers ≤ most_readers }
    ensures history { IfOk result (λ opened. opened.engine ≡ engine_content opened.engine.publisher (empty_version first ∷ [])) }
    ensures readers { IfOk result (λ opened. AreOf opened.engine.publisher opened.readers.items) }
    ensures few { IfOk result (λ opened. length opened.readers.items ≤ readers) }
    ensures lines { IfOk result (λ opened. opened.lines ≡ 0) }
    ensures bad_first { (n : ℕ) → IsErrOf result (BadFirst n) ↔ ((n ≡ first) × (address_end < first)) }
{
    match Engine::open(rt, alloc, first, readers) {
        Ok(opened) => {
            let mut opened = opened;
            opened.engine.seed(own_number(rt));
            Ok(opened)
        }
        Err(fault) => Err(fault),
    }
}

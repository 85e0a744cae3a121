ghost use Rattle.std.specs.Prelude.{◌≡◌, IfOk};
ghost use Rattle.shard_build.specs.Met.{HasHead};

use gcl_model::Bytes;
use index_shard::head_of;
use std::alloc::{AllocError, Global};
use std::marker::Model;

/// The bytes of a token, and the first eight of them as a number.
#[derive(Drop)]
pub(crate) struct Name {
    head: u64,
    bytes: Bytes,
}

impl Model for Name {
    ghost use Rattle.std.specs.Prelude.{List, ℕ};
    ghost use Rattle.shard_build.specs.Met.{HasHead};

    ghost Value = { List ℕ };

    ghost view = { λ n. n.bytes };

    ghost invariant = { λ n. HasHead n.head n.bytes };
}

impl Name {
    /// A name of these bytes.
    pub(crate) fn copy_of(alloc: Global, bytes: &[u8]) -> Result<Self, AllocError>
        ensures { IfOk result (λ name. name ≡ bytes.now) }
    {
        let copy = Bytes::copy_of(alloc, bytes)?;
        Ok(Name {
            head: head_of(bytes),
            bytes: copy,
        })
    }

    /// The first eight bytes as a number.
    pub(crate) fn head(&self) -> u64
        ensures { HasHead result self.now }
    {
        self.head
    }

    /// All bytes.
    pub(crate) fn as_slice(&self) -> &[u8]
        ensures { result.now ≡ self.now }
    {
        self.bytes.as_slice()
    }
}

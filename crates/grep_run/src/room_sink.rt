ghost use Rattle.std.specs.Prelude.{◌≡◌, Some, []};

use crate::buffer::buffer_for;
use gcl_model::Bytes;
use outside::{Sink, WriteError};
use std::alloc::Global;

/// Keeps what is written while there is room for it. A piece that has no room is refused as out of memory.
#[derive(Drop)]
pub(crate) struct RoomSink {
    taken: Vec<u8>,
    room: usize,
}

impl RoomSink {
    /// Nothing has been written yet. It takes no memory.
    pub(crate) fn new(alloc: Global, room: usize) -> Self
        ensures { ⟦<RoomSink as Sink>⟧.written result ≡ Some [] }
    {
        RoomSink {
            taken: buffer_for(alloc, room),
            room,
        }
    }

    /// The bytes that were written.
    pub(crate) fn into_bytes(self) -> Bytes
        ensures { ⟦<RoomSink as Sink>⟧.written self ≡ Some result }
    {
        Bytes::of(self.taken)
    }
}

impl Sink for RoomSink {
    ghost written = { λ s. Some s.taken.items };

    ghost faults = { λ _. 0 };

    fn write(&mut self, piece: &[u8]) -> Result<usize, WriteError> {
        if piece.len() > self.room {
            return Err(WriteError::NoMemory);
        }
        self.taken.extend_from_slice(piece)?;
        self.room -= piece.len();
        Ok(piece.len())
    }
}

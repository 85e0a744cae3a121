use posting_code::RowsRoom;

/// The room of a table: the numbers of terms, of their bytes and of bytes of packed differences of lists of up to 64, and the longer lists.
#[derive(Clone, Copy)]
pub struct Room {
    pub terms: usize,
    pub bytes: usize,
    pub packed: usize,
    pub long: RowsRoom,
}

impl Room {
    /// The room of both, each number at most the greatest `usize`.
    pub fn and(self, other: Room) -> Room {
        Room {
            terms: self.terms.saturating_add(other.terms),
            bytes: self.bytes.saturating_add(other.bytes),
            packed: self.packed.saturating_add(other.packed),
            long: self.long.and(other.long),
        }
    }
}

/// The room for long lists in a table that is made of tables with this room in all: a long list may take in short ones, and has a
/// step between any two.
pub(crate) fn long_room(room: Room) -> RowsRoom {
    if room.long.lists == 0 {
        return RowsRoom::NONE;
    }
    let steps = room.long.lists.saturating_mul(STEP_BYTES);
    RowsRoom {
        packed: room
            .long
            .packed
            .saturating_add(room.packed)
            .saturating_add(steps),
        ..room.long
    }
}

/// How many bytes the step between two lists takes at most.
const STEP_BYTES: usize = 8;

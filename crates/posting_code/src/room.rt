//! How much room is kept.

/// The room of lists in rows: the numbers of lists, of bytes of packed differences, and of blocks after the first of each list.
#[derive(Clone, Copy)]
pub struct RowsRoom {
    pub lists: usize,
    pub packed: usize,
    pub heads: usize,
}

impl RowsRoom {
    /// That of no lists.
    pub const NONE: RowsRoom = RowsRoom {
        lists: 0,
        packed: 0,
        heads: 0,
    };

    /// The room of both, each number at most the greatest `usize`.
    pub fn and(self, other: RowsRoom) -> RowsRoom {
        RowsRoom {
            lists: self.lists.saturating_add(other.lists),
            packed: self.packed.saturating_add(other.packed),
            heads: self.heads.saturating_add(other.heads),
        }
    }
}

/// Whether the room beyond the members is worth giving back: that takes as long as asking for it.
pub(crate) fn is_roomy(room: usize, count: usize) -> bool {
    room.saturating_sub(count) > count / 8
}

//! Addresses that are moved up.
ghost use Rattle.std.specs.Prelude.{◌≡◌};
ghost use Rattle.posting_code.specs.Moved.{can_move, moved_address};

use crate::posting_list::ADDRESS_END;

/// Whether there are members, and the last one stays below the end when it is moved up.
pub(crate) fn can_move(count: usize, last: u64, by: u64) -> bool
    ensures { result ≡ can_move count last by }
{
    count > 0 && by < ADDRESS_END && last < ADDRESS_END - by
}

/// An address moved up, at most to the greatest `u64`.
pub(crate) fn move_address(address: u64, by: u64) -> u64
    ensures { result ≡ moved_address by address }
{
    address.saturating_add(by)
}

ghost use Rattle.std.specs.Prelude.{◌≡◌, ◌+◌, ◌-◌, ◌≤◌, ◌<◌, ◌↔◌, IfOk, IfErr, IsErr};
ghost use Rattle.gcl_model.specs.Limits.{address_end};
ghost use Rattle.gcl_model.specs.Slots.{slot_range};

use crate::range::Range;
use gcl_model::ADDRESS_END;

/// `need` addresses starting at `next` are needed, and there are not that many.
#[derive(Clone, Copy, Debug, PartialEq, Eq)]
pub struct AddressesSpent {
    pub next: u64,
    pub need: u64,
}

/// The next `need` addresses: three starting at 7 are 7 to 9. Returns Err if they would not all be below `ADDRESS_END`.
pub fn place(next: u64, need: u64) -> Result<Range, AddressesSpent>
    requires start { next ≤ address_end }
    requires some { 1 ≤ need }
    requires most { need ≤ address_end }
    ensures ok { IfOk result (λ range. range ≡ slot_range next (next + need - 1)) }
    ensures spent { IsErr result ↔ (address_end < next + need) }
    ensures err { IfErr result (λ spent. (spent.next ≡ next) × (spent.need ≡ need)) }
{
    let end = next + need;
    if end > ADDRESS_END {
        return Err(AddressesSpent { next, need });
    }
    Ok(Range {
        first: next,
        last: end - 1,
    })
}

//! What several tests begin with.
ghost use Rattle.std.specs.Prelude.{IfOk};
ghost use Rattle.posting_code.specs.Postings.{ArePostings};

use posting_code::ADDRESS_END;
use std::alloc::{AllocError, Global};

/// Some addresses, starting at `first`, each `gap` above the previous one, and no more than fit.
pub fn addresses(alloc: Global, first: u64, count: u16, gap: u64) -> Result<Vec<u64>, AllocError>
    ensures { IfOk result (λ numbers. ArePostings numbers.items) }
{
    let mut numbers = Vec::new(alloc);
    let mut next = first;
    for i in 0..count {
        let _ = i;
        if gap == 0 || ADDRESS_END <= gap || ADDRESS_END <= next {
            return Ok(numbers);
        }
        numbers.push(next)?;
        next += gap;
    }
    Ok(numbers)
}

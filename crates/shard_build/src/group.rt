ghost use Rattle.std.specs.Prelude.{◌≡◌, ◌+◌, ◌-◌, ◌≤◌, List, ℕ, None, IfOk};
ghost use Rattle.gcl_model.specs.Collections.{with_boundaries, width_of};
ghost use Rattle.gcl_model.specs.Limits.{address_end};
ghost use Rattle.gcl_model.specs.Slots.{slot_range};
ghost use Rattle.shard_build.specs.Met.{HaveTokens, addresses_of};

use crate::names::Names;
use crate::source::TokenSource;
use address_space::Range;
use gcl_model::{file_end, file_start};
use std::alloc::{AllocError, Global};

/// Lists the addresses of each token of a file under its name, with `<file!>` at `base`, and returns the range of the addresses.
pub(crate) fn group_by_token<S: TokenSource>(
    alloc: Global,
    names: &mut Names,
    base: u64,
    source: &mut S,
) -> Result<Range, AllocError>
    requires none { (token : List ℕ) → addresses_of names.old token ≡ None }
    requires room { base + width_of (S.left source.old) ≤ address_end }
    ensures tokens { IfOk result (λ range. HaveTokens names.new range (with_boundaries (S.left source.old))) }
    ensures range { IfOk result (λ range. range ≡ slot_range base (base + width_of (S.left source.old) - 1)) }
{
    names.put(file_start(), base)?;
    let mut address = base;
    let mut token = Vec::new(alloc);
    while source.next(&mut token)? {
        address += 1;
        names.put(&token, address)?;
    }
    let last = address + 1;
    names.put(file_end(), last)?;
    Ok(Range { first: base, last })
}

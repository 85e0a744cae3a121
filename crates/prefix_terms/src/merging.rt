ghost use Rattle.std.specs.Prelude.{◌≡◌, ◌++◌, IfOk};
ghost use Rattle.wide_terms.specs.Vocabulary.{RiseInBytes, in_byte_order};
ghost use Rattle.prefix_terms.specs.Runs.{tokens_in};

use std::alloc::{AllocError, Global};
use std::cmp::Ordering;

/// The words of both lists, in rising byte order and each once.
pub(crate) fn merged<'a>(
    alloc: Global,
    first: &[&'a [u8]],
    second: &[&'a [u8]],
) -> Result<Vec<&'a [u8]>, AllocError>
    requires first { RiseInBytes (tokens_in first.now) }
    requires second { RiseInBytes (tokens_in second.now) }
    ensures { IfOk result (λ all. tokens_in all.items ≡ in_byte_order (tokens_in first.now ++ tokens_in second.now)) }
{
    let mut all = Vec::new(alloc);
    let mut i = 0;
    let mut j = 0;
    while i < first.len() && j < second.len() {
        let a = first[i];
        let b = second[j];
        match a.cmp(b) {
            Ordering::Less => {
                all.push(a)?;
                i += 1;
            }
            Ordering::Equal => {
                all.push(a)?;
                i += 1;
                j += 1;
            }
            Ordering::Greater => {
                all.push(b)?;
                j += 1;
            }
        }
    }
    all.extend_from_slice(&first[i..])?;
    all.extend_from_slice(&second[j..])?;
    Ok(all)
}

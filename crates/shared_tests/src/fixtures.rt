ghost use Rattle.std.specs.Prelude.{◌≡◌, IfOk, length};

use gcl_model::Bytes;
use std::alloc::{AllocError, Global};

/// The words of a command line.
pub fn words_of(alloc: Global, words: &[&[u8]]) -> Result<Vec<Bytes>, AllocError>
    ensures { IfOk result (λ list. length list.items ≡ length words.now) }
{
    let mut list = Vec::new(alloc);
    for word in words {
        list.push(Bytes::copy_of(alloc, word)?)?;
    }
    Ok(list)
}

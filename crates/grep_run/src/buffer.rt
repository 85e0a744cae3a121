ghost use Rattle.std.specs.Prelude.{◌≡◌, []};

use std::alloc::Global;

/// A text that may have at least this many bytes gets a buffer of its own with much address space.
pub(crate) const LARGE: usize = 1 << 20;

/// How much address space such a buffer has: what is not written takes no memory. A block of more than 32 MiB goes back to the system as
/// soon as it is freed, while the C library keeps smaller ones for the thread that used them.
const SPACE: usize = (1 << 25) + (1 << 16);

/// A buffer for a large file or text.
pub(crate) fn large_buffer(alloc: Global) -> Vec<u8>
    ensures { result.items ≡ [] }
{
    match Vec::with_capacity(alloc, SPACE) {
        Ok(buffer) => buffer,
        Err(_) => Vec::new(alloc),
    }
}

/// A buffer for at most `most` bytes, which takes no memory before they are written.
pub(crate) fn buffer_for(alloc: Global, most: usize) -> Vec<u8>
    ensures { result.items ≡ [] }
{
    if most < LARGE {
        return Vec::new(alloc);
    }
    large_buffer(alloc)
}

ghost use Rattle.std.specs.Prelude.{◌≡◌};
ghost use Rattle.image_read.specs.declared.fault.ImageFault.TheVariants.{NoMemory};

use std::alloc::AllocError;
use thiserror::Error;

/// Why bytes were not read as an image.
#[derive(Clone, Copy, Debug, Drop, Error, PartialEq, Eq)]
pub enum ImageFault {
    /// The bytes are the image of no collection, in no version of the format.
    #[error("not an image")]
    NotImage,
    /// There is not enough memory for the collection that they spell.
    #[error("out of memory")]
    NoMemory,
}

impl From<AllocError> for ImageFault {
    ghost from_gives = { λ _ fault. fault ≡ NoMemory };

    fn from(_: AllocError) -> Self {
        ImageFault::NoMemory
    }
}

use std::hash::{BuildHasher, FoldHasher, Hasher};

/// Makes hashers that begin with a number. A text that is made to be slow for one number is not slow for another.
#[derive(Clone, Copy)]
pub(crate) struct Seeded {
    initial: FoldHasher,
}

impl Seeded {
    /// The hashers that begin with this number.
    pub(crate) fn new(seed: u64) -> Self {
        let mut initial = FoldHasher::default();
        initial.write_u64(seed);
        Seeded { initial }
    }
}

impl BuildHasher for Seeded {
    type Hasher = FoldHasher;

    ghost build_hasher = { λ s. s.initial };

    fn build_hasher(&self) -> FoldHasher {
        self.initial
    }
}

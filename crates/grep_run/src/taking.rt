use std::sync::atomic::{AtomicU64, Ordering};

/// The most bytes of texts that are held until they are written, except for those of one file for each thread.
const MOST_HELD: u64 = 1 << 21;

/// Which names threads have taken, and how much they hold. It keeps threads evenly busy, and no clause mentions its numbers.
#[derive(Drop)]
pub(crate) struct Taking {
    next: AtomicU64,
    held: AtomicU64,
    loaded: AtomicU64,
    most_loaded: u64,
}

impl Taking {
    /// No name is taken yet. Names are taken until `most_loaded` bytes are loaded, or there is enough text to write.
    pub(crate) fn new(most_loaded: u64) -> Self {
        Taking {
            next: AtomicU64::new(0),
            held: AtomicU64::new(0),
            loaded: AtomicU64::new(0),
            most_loaded,
        }
    }

    /// Takes the next name, unless enough are taken.
    pub(crate) fn take(&self) -> Option<usize> {
        let is_enough = self.held.load(Ordering::SeqCst) >= MOST_HELD
            || self.loaded.load(Ordering::SeqCst) >= self.most_loaded;
        if is_enough {
            return None;
        }
        Some(self.next.fetch_add(1, Ordering::SeqCst) as usize)
    }

    /// A file of `loaded` bytes was loaded, and `held` bytes are held for it.
    pub(crate) fn note(&self, loaded: usize, held: usize) {
        let _ = self.loaded.fetch_add(loaded as u64, Ordering::SeqCst);
        let _ = self.held.fetch_add(held as u64, Ordering::SeqCst);
    }

    /// How many names were taken.
    pub(crate) fn count(&self) -> usize {
        self.next.load(Ordering::SeqCst) as usize
    }
}

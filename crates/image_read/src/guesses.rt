ghost use Rattle.std.specs.Prelude.{◌<◌};

use crate::places::Stretch;
use std::alloc::{AllocError, Global};

/// Guesses of the file that an address is in. No contract says anything about them: the caller checks whether a guess is right.
// The addresses are cut into parts of equal length, about two for each file, and for each part the file of its first address is noted.
#[derive(Drop)]
pub(crate) struct Guesses {
    first: u64,
    // a part has two to this power of addresses
    power: u32,
    parts: Vec<usize>,
    ghost in_range: { power < 64 },
}

impl Guesses {
    /// The guesses for some files in a row.
    pub(crate) fn new(alloc: Global, stretches: &[Stretch]) -> Result<Self, AllocError> {
        let most = stretches.len().saturating_mul(2);
        let (first, last) = ends_of(stretches);
        let power = power_for(last.saturating_sub(first), most as u64);
        let mut parts = Vec::new(alloc);
        for (i, stretch) in stretches.iter().enumerate() {
            let part = stretch.last.saturating_sub(first) >> power;
            note(&mut parts, i, (part as usize).min(most).saturating_add(1))?;
        }
        Ok(Guesses {
            first,
            power,
            parts,
        })
    }

    /// A place among the files, most often that of the file that has the address, or a little before it.
    #[inline(always)]
    pub(crate) fn of(&self, address: u64) -> usize {
        let part = address.saturating_sub(self.first) >> self.power;
        match self.parts.get(part as usize) {
            Some(file) => *file,
            None => 0,
        }
    }
}

/// The first and the last address of some stretches.
fn ends_of(stretches: &[Stretch]) -> (u64, u64) {
    match stretches {
        [] => (0, 0),
        [only] => (only.first, only.last),
        [first, .., last] => (first.first, last.last),
    }
}

/// Notes a file for each of the first `count` parts that has none.
fn note(parts: &mut Vec<usize>, file: usize, count: usize) -> Result<(), AllocError> {
    if parts.len() < count {
        parts.resize(count, file)?;
    }
    Ok(())
}

/// The least power of two by which `length + 1` addresses are cut into at most `most + 1` parts.
fn power_for(length: u64, most: u64) -> u32
    ensures { result < 64 }
{
    for power in 0..63u32 {
        if length >> power <= most {
            return power;
        }
    }
    63
}

ghost use Rattle.std.specs.Prelude.{◌≡◌, [], IfSome};
ghost use Rattle.made_corpus.specs.Counted.{AreCountsOf, counts_with, counts_with_all};

/// What is counted of a text, byte by byte.
#[derive(Clone, Copy, Debug, PartialEq, Eq)]
pub(crate) struct Counts {
    /// How many lines begin with an exclamation mark.
    pub(crate) refused: u64,
    pub(crate) bytes: u64,
    /// The sum of the bytes.
    pub(crate) sum: u64,
    /// Whether the next byte begins a line.
    pub(crate) begins: bool,
}

impl Counts {
    /// The counts of no bytes.
    pub(crate) fn none() -> Counts
        ensures { AreCountsOf result [] }
    {
        Counts {
            refused: 0,
            bytes: 0,
            sum: 0,
            begins: true,
        }
    }

    /// These counts with one more byte, or None if a number has no room for it.
    pub(crate) fn with(self, byte: u8) -> Option<Counts>
        ensures { IfSome result (λ counts. counts ≡ counts_with self byte) }
    {
        let refused = if self.begins && byte == b'!' { 1 } else { 0 };
        Some(Counts {
            refused: self.refused.checked_add(refused)?,
            bytes: self.bytes.checked_add(1)?,
            sum: self.sum.checked_add(u64::from(byte))?,
            begins: byte == b'\n',
        })
    }

    /// These counts with one more piece, or None if a number might have no room for it, or the piece is longer than some 16 MiB.
    pub(crate) fn with_all(self, piece: &[u8]) -> Option<Counts>
        ensures { IfSome result (λ counts. counts ≡ counts_with_all self piece.now) }
    {
        // a byte adds at most 255 to each number, so one check before the loop saves one at every byte
        let most = u32::try_from(piece.len()).ok()?.checked_mul(255)?;
        self.refused.checked_add(u64::from(most))?;
        self.bytes.checked_add(u64::from(most))?;
        self.sum.checked_add(u64::from(most))?;
        // in the loop they have 32 bits, with which a processor counts twice as many bytes at once as with 64
        let (mut refused, mut sum, mut begins) = (0u32, 0u32, self.begins);
        for byte in piece {
            refused += u32::from(begins & (*byte == b'!'));
            sum += u32::from(*byte);
            begins = *byte == b'\n';
        }
        Some(Counts {
            refused: self.refused + u64::from(refused),
            bytes: self.bytes + piece.len() as u64,
            sum: self.sum + u64::from(sum),
            begins,
        })
    }
}

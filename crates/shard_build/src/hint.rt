/// Fewer names of a file than this are sorted as quickly without looking for a run.
const FEW_NAMES: usize = 64;

/// Putting a name in order takes as long as sorting this many names.
const SORTED_NAMES: usize = 8;

/// What is known of the order of the names. Nothing but speed depends on it, so no contract speaks of it.
#[derive(Clone, Copy)]
pub(crate) struct Hint {
    // how many of the first names were put in order
    ordered: usize,
    // how many names were sorted since that were not among these
    late: usize,
}

impl Hint {
    /// No names are in order.
    pub(crate) fn new() -> Self {
        Hint {
            ordered: 0,
            late: 0,
        }
    }

    /// Whether enough of the names to be sorted are in order for it to be worth going through all names.
    pub(crate) fn has_run(&mut self, names: usize, seen: usize) -> bool {
        if seen < FEW_NAMES || seen < names / 4 {
            return false;
        }
        let late = names.saturating_sub(self.ordered);
        self.late = self.late.saturating_add(late.min(seen));
        late <= names / 2
    }

    /// Whether it is time to put this many names in order.
    // This never takes more time than the sorting that it saves has taken before.
    pub(crate) fn is_due(&self, names: usize) -> bool {
        self.late / SORTED_NAMES > names
    }

    /// Notes that this many names were put in order.
    pub(crate) fn put(&mut self, names: usize) {
        self.ordered = names;
        self.late = 0;
    }
}

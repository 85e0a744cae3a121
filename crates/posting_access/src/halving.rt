ghost use Rattle.std.specs.Prelude.{◌≡◌, ◌-◌, ◌<◌, ◌≤◌, true, false};
ghost use Rattle.posting_access.specs.Search.{RisesByDigits};

use gcl_model::{Ledger, Steps};

/// A test of the places before a length. Nothing is assumed about which places pass.
pub trait Test {
    ghost use Rattle.std.specs.Prelude.{ℕ, Bool};

    /// How many places there are.
    ghost places: { Self → ℕ };

    /// Whether a place passes.
    ghost passes: { Self → ℕ → Bool };

    fn passes_at(&self, i: usize) -> bool
        requires { i < places self.now }
        ensures { result ≡ passes self.now i };
}

/// A place from `from` to `upto` that fails or is the end, and whose predecessor passes unless it is the first. Each test of
/// a place is a probe.
pub fn border<T: Test, L: Ledger>(
    test: &T,
    from: usize,
    upto: usize,
    probes: &mut Steps<L>,
) -> usize
    requires ordered { from ≤ upto }
    requires within { upto ≤ T.places test.now }
    requires before { 0 < from → T.passes test.now (from - 1) ≡ true }
    requires after { upto < T.places test.now → T.passes test.now upto ≡ false }
    ensures from { from ≤ result }
    ensures upto { result ≤ upto }
    ensures before { 0 < result → T.passes test.now (result - 1) ≡ true }
    ensures after { result < T.places test.now → T.passes test.now result ≡ false }
    ensures probes { RisesByDigits (upto - from) probes.old probes.new }
{
    let mut low = from;
    let mut high = upto;
    while low < high {
        let middle = low + (high - low) / 2;
        probes.tick();
        if test.passes_at(middle) {
            low = middle + 1;
        } else {
            high = middle;
        }
    }
    low
}

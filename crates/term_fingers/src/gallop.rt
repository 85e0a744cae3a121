ghost use Rattle.std.specs.Prelude.{◌≡◌, ◌-◌, ◌<◌, ◌≤◌, true, false};

use posting_access::Test;

/// A place that fails, or the end, such that the place before it passes, or it is the first. The search starts at `hint`, takes steps that
/// double, and then halves: it makes about twice as many tests as the border's distance from `hint` has binary digits. Any hint is right,
/// even one after the end.
pub(crate) fn border_near<T: Test>(test: &T, len: usize, hint: usize) -> usize
    requires { len ≡ T.places test.now }
    ensures within { result ≤ T.places test.now }
    ensures before { 0 < result → T.passes test.now (result - 1) ≡ true }
    ensures after { result < T.places test.now → T.passes test.now result ≡ false }
{
    if hint < len {
        if test.passes_at(hint) {
            border_from(test, len, hint + 1)
        } else {
            border_upto(test, hint)
        }
    } else {
        border_upto(test, len)
    }
}

/// The border at or after a place.
fn border_from<T: Test>(test: &T, len: usize, from: usize) -> usize
    requires len { len ≡ T.places test.now }
    requires within { from ≤ len }
    requires before { 0 < from → T.passes test.now (from - 1) ≡ true }
    ensures within { result ≤ T.places test.now }
    ensures before { 0 < result → T.passes test.now (result - 1) ≡ true }
    ensures after { result < T.places test.now → T.passes test.now result ≡ false }
{
    let mut low = from;
    let mut step = 0usize;
    while step < len - low {
        let probe = low + step;
        if !test.passes_at(probe) {
            return border_between(test, low, probe);
        }
        low = probe + 1;
        step = step.saturating_mul(2).saturating_add(1);
    }
    border_between(test, low, len)
}

/// The border at or before a place.
fn border_upto<T: Test>(test: &T, upto: usize) -> usize
    requires within { upto ≤ T.places test.now }
    requires after { upto < T.places test.now → T.passes test.now upto ≡ false }
    ensures within { result ≤ T.places test.now }
    ensures before { 0 < result → T.passes test.now (result - 1) ≡ true }
    ensures after { result < T.places test.now → T.passes test.now result ≡ false }
{
    let mut high = upto;
    let mut step = 0usize;
    while step < high {
        let probe = high - 1 - step;
        if test.passes_at(probe) {
            return border_between(test, probe + 1, high);
        }
        high = probe;
        step = step.saturating_mul(2).saturating_add(1);
    }
    border_between(test, 0, high)
}

/// The border between two places, by halving.
fn border_between<T: Test>(test: &T, from: usize, upto: usize) -> usize
    requires ordered { from ≤ upto }
    requires within { upto ≤ T.places test.now }
    requires before { 0 < from → T.passes test.now (from - 1) ≡ true }
    requires after { upto < T.places test.now → T.passes test.now upto ≡ false }
    ensures within { result ≤ T.places test.now }
    ensures before { 0 < result → T.passes test.now (result - 1) ≡ true }
    ensures after { result < T.places test.now → T.passes test.now result ≡ false }
{
    let mut low = from;
    let mut high = upto;
    while low < high {
        let middle = low + (high - low) / 2;
        if test.passes_at(middle) {
            low = middle + 1;
        } else {
            high = middle;
        }
    }
    low
}

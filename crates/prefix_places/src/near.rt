ghost use Rattle.std.specs.Prelude.{◌≡◌, ◌-◌, ◌<◌, ◌≤◌, length, slice_index, slice_get};

/// The border of `k`: a place whose number is not below `k`, or the end, such that the number before it, if any, is below `k`. In a
/// rising list it is how many numbers are below `k`. The search starts at the place `hint`, in steps that double, and then halves. Any
/// hint is right.
#[inline]
pub(crate) fn border_near(numbers: &[u64], k: u64, hint: usize) -> usize
    ensures within { result ≤ length numbers.now }
    ensures before { 0 < result → slice_index numbers.now (result - 1) < k }
    ensures after { result < length numbers.now → k ≤ slice_index numbers.now result }
{
    if hint < numbers.len() {
        if numbers[hint] < k {
            border_from(numbers, k, hint + 1)
        } else {
            border_upto(numbers, k, hint)
        }
    } else {
        border_upto(numbers, k, numbers.len())
    }
}

/// The border at or after a place.
fn border_from(numbers: &[u64], k: u64, from: usize) -> usize
    requires within { from ≤ length numbers.now }
    requires before { 0 < from → slice_index numbers.now (from - 1) < k }
    ensures within { result ≤ length numbers.now }
    ensures before { 0 < result → slice_index numbers.now (result - 1) < k }
    ensures after { result < length numbers.now → k ≤ slice_index numbers.now result }
{
    let mut low = from;
    let mut step = 0usize;
    while step < numbers.len() - low {
        let probe = low + step;
        if numbers[probe] >= k {
            return border(numbers, k, low, probe);
        }
        low = probe + 1;
        step = step.saturating_mul(2).saturating_add(1);
    }
    border(numbers, k, low, numbers.len())
}

/// The border up to a place.
fn border_upto(numbers: &[u64], k: u64, upto: usize) -> usize
    requires within { upto ≤ length numbers.now }
    requires after { upto < length numbers.now → k ≤ slice_index numbers.now upto }
    ensures within { result ≤ length numbers.now }
    ensures before { 0 < result → slice_index numbers.now (result - 1) < k }
    ensures after { result < length numbers.now → k ≤ slice_index numbers.now result }
{
    let mut high = upto;
    let mut step = 0usize;
    while step < high {
        let probe = high - 1 - step;
        if numbers[probe] < k {
            return border(numbers, k, probe + 1, high);
        }
        high = probe;
        step = step.saturating_mul(2).saturating_add(1);
    }
    border(numbers, k, 0, high)
}

/// The border between two places, by halving.
fn border(numbers: &[u64], k: u64, from: usize, upto: usize) -> usize
    requires ordered { from ≤ upto }
    requires within { upto ≤ length numbers.now }
    requires before { 0 < from → slice_index numbers.now (from - 1) < k }
    requires after { upto < length numbers.now → k ≤ slice_index numbers.now upto }
    ensures within { result ≤ length numbers.now }
    ensures before { 0 < result → slice_index numbers.now (result - 1) < k }
    ensures after { result < length numbers.now → k ≤ slice_index numbers.now result }
{
    let mut low = from;
    let mut high = upto;
    while low < high {
        let middle = low + (high - low) / 2;
        if numbers[middle] < k {
            low = middle + 1;
        } else {
            high = middle;
        }
    }
    low
}

/// The number at a place, or None at the end.
#[inline]
pub(crate) fn member_at(numbers: &[u64], at: usize) -> Option<u64>
    ensures { result ≡ slice_get numbers.now at }
{
    numbers.get(at).copied()
}
